ghost use Rattle.std.specs.Prelude.{map};
ghost use Rattle.text_tokens.specs.Lexeme.{lexeme_of};
ghost use Rattle.text_grammar.specs.Reading.{Gives};
ghost use Rattle.report_syntax.specs.Reading.{rankings_at, rows_at};

use crate::attribute::attribute;
use crate::{RankingTree, RankingTreeList};
use currency_base::NoMemory;
use log_syntax::{Gathers, MOST, gather, word_on};
use std::alloc::Global;
use text_grammar::{Named, NamedList, Refusal, Repeats, Rule, is_fixed, name, symbol, word};
use text_tokens::{Token, TokenKind};

/// Takes rankings from the front of the tokens.
#[tactic(auto, unfolding(crate::specs::Reading::rankings_at))]
pub fn rankings<'a>(
    alloc: Global,
    tokens: &'a [Token<'a>],
) -> Result<(RankingTreeList, &'a [Token<'a>]), Refusal<'a>>
    ensures { Gives (λ x. (x.0, map lexeme_of x.1.now)) result (rankings_at (map lexeme_of tokens.now)) }
{
    gather::<RankingRule>(alloc, MOST, RankingTreeList::new(alloc), tokens)
}

/// The ranking of an entity's rows.
enum RankingRule {}

impl Rule for RankingRule {
    ghost use Rattle.report_syntax.specs.Reading.{ranking_at};

    type Tree = RankingTree;

    ghost reader = { ranking_at };

    #[tactic(auto, unfolding(crate::specs::Reading::ranking_at))]
    fn read<'a>(
        alloc: Global,
        tokens: &'a [Token<'a>],
    ) -> Result<(RankingTree, &'a [Token<'a>]), Refusal<'a>> {
        let (line, rest) = word_on(b"ranking", tokens)?;
        let (of, rest) = attribute(alloc, rest)?;
        let rest = word(b"of", rest)?;
        let (entity, rest) = name(alloc, rest)?;
        let rest = symbol(b":", rest)?;
        let (rows, rest) = rows(alloc, rest)?;
        let rest = symbol(b";", rest)?;
        Ok((
            RankingTree {
                line,
                relation: of.relation,
                attr: of.attr,
                entity,
                rows,
            },
            rest,
        ))
    }
}

impl Repeats for RankingRule {
    ghost use Rattle.std.specs.Prelude.{codes};
    ghost use Rattle.text_grammar.specs.Words;

    ghost begins = { Words.is_word (codes "ranking") };

    fn begins_with(token: &Token) -> bool {
        is_fixed(TokenKind::Word, b"ranking", token)
    }
}

impl Gathers for RankingRule {
    ghost use Rattle.log_syntax.specs.Reading.{pushed};

    type Into = RankingTreeList;

    ghost put = { pushed };

    fn put(into: &mut RankingTreeList, tree: RankingTree) -> Result<(), NoMemory> {
        into.push(tree)
    }
}

/// Takes the rows of a ranking from the front of the tokens, the oldest first.
#[tactic(auto, unfolding(crate::specs::Reading::rows_at))]
fn rows<'a>(
    alloc: Global,
    tokens: &'a [Token<'a>],
) -> Result<(NamedList, &'a [Token<'a>]), Refusal<'a>>
    ensures { Gives (λ x. (x.0, map lexeme_of x.1.now)) result (rows_at (map lexeme_of tokens.now)) }
{
    let mut rows = NamedList::new(alloc);
    let (row, rest) = name(alloc, tokens)?;
    rows.push(row)?;
    gather::<FurtherRowRule>(alloc, MOST - 1, rows, rest)
}

/// The sign before a row, and the row.
enum FurtherRowRule {}

impl Rule for FurtherRowRule {
    ghost use Rattle.report_syntax.specs.Reading.{further_row_at};

    type Tree = Named;

    ghost reader = { further_row_at };

    #[tactic(auto, unfolding(crate::specs::Reading::further_row_at))]
    fn read<'a>(
        alloc: Global,
        tokens: &'a [Token<'a>],
    ) -> Result<(Named, &'a [Token<'a>]), Refusal<'a>> {
        let rest = symbol(b"<", tokens)?;
        name(alloc, rest)
    }
}

impl Repeats for FurtherRowRule {
    ghost use Rattle.std.specs.Prelude.{codes};
    ghost use Rattle.text_grammar.specs.Words;

    ghost begins = { Words.is_symbol (codes "<") };

    fn begins_with(token: &Token) -> bool {
        is_fixed(TokenKind::Symbol, b"<", token)
    }
}

impl Gathers for FurtherRowRule {
    ghost use Rattle.log_syntax.specs.Reading.{pushed};

    type Into = NamedList;

    ghost put = { pushed };

    fn put(into: &mut NamedList, tree: Named) -> Result<(), NoMemory> {
        into.push(tree)
    }
}
