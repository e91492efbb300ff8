ghost use Rattle.std.specs.Prelude.{map};
ghost use Rattle.text_tokens.specs.Lexeme.{lexeme_of};
ghost use Rattle.text_grammar.specs.Reading.{Gives};
ghost use Rattle.report_syntax.specs.Reading.{answers_at, currents_at};

use crate::{AnswerTree, AnswerTreeList, CurrentTree, CurrentTreeList};
use currency_base::NoMemory;
use log_syntax::{Gathers, MOST, gather, values, word_on};
use std::alloc::Global;
use text_grammar::{Refusal, Repeats, Rule, is_fixed, name, symbol};
use text_tokens::{Token, TokenKind};

/// Takes current tuples from the front of the tokens.
#[tactic(auto, unfolding(crate::specs::Reading::currents_at))]
pub fn currents<'a>(
    alloc: Global,
    tokens: &'a [Token<'a>],
) -> Result<(CurrentTreeList, &'a [Token<'a>]), Refusal<'a>>
    ensures { Gives (λ x. (x.0, map lexeme_of x.1.now)) result (currents_at (map lexeme_of tokens.now)) }
{
    gather::<CurrentRule>(alloc, MOST, CurrentTreeList::new(alloc), tokens)
}

/// Takes answers from the front of the tokens.
#[tactic(auto, unfolding(crate::specs::Reading::answers_at))]
pub fn answers<'a>(
    alloc: Global,
    tokens: &'a [Token<'a>],
) -> Result<(AnswerTreeList, &'a [Token<'a>]), Refusal<'a>>
    ensures { Gives (λ x. (x.0, map lexeme_of x.1.now)) result (answers_at (map lexeme_of tokens.now)) }
{
    gather::<AnswerRule>(alloc, MOST, AnswerTreeList::new(alloc), tokens)
}

/// The current tuple of an entity.
enum CurrentRule {}

impl Rule for CurrentRule {
    ghost use Rattle.report_syntax.specs.Reading.{current_at};

    type Tree = CurrentTree;

    ghost reader = { current_at };

    #[tactic(auto, unfolding(crate::specs::Reading::current_at))]
    fn read<'a>(
        alloc: Global,
        tokens: &'a [Token<'a>],
    ) -> Result<(CurrentTree, &'a [Token<'a>]), Refusal<'a>> {
        let (line, rest) = word_on(b"current", tokens)?;
        let (relation, rest) = name(alloc, rest)?;
        let (entity, rest) = name(alloc, rest)?;
        let (values, rest) = values(alloc, rest)?;
        let rest = symbol(b";", rest)?;
        Ok((
            CurrentTree {
                line,
                relation,
                entity,
                values,
            },
            rest,
        ))
    }
}

impl Repeats for CurrentRule {
    ghost use Rattle.std.specs.Prelude.{codes};
    ghost use Rattle.text_grammar.specs.Words;

    ghost begins = { Words.is_word (codes "current") };

    fn begins_with(token: &Token) -> bool {
        is_fixed(TokenKind::Word, b"current", token)
    }
}

impl Gathers for CurrentRule {
    ghost use Rattle.log_syntax.specs.Reading.{pushed};

    type Into = CurrentTreeList;

    ghost put = { pushed };

    fn put(into: &mut CurrentTreeList, tree: CurrentTree) -> Result<(), NoMemory> {
        into.push(tree)
    }
}

/// An answer.
enum AnswerRule {}

impl Rule for AnswerRule {
    ghost use Rattle.report_syntax.specs.Reading.{answer_at};

    type Tree = AnswerTree;

    ghost reader = { answer_at };

    #[tactic(auto, unfolding(crate::specs::Reading::answer_at))]
    fn read<'a>(
        alloc: Global,
        tokens: &'a [Token<'a>],
    ) -> Result<(AnswerTree, &'a [Token<'a>]), Refusal<'a>> {
        let (line, rest) = word_on(b"answer", tokens)?;
        let (values, rest) = values(alloc, rest)?;
        let rest = symbol(b";", rest)?;
        Ok((AnswerTree { line, values }, rest))
    }
}

impl Repeats for AnswerRule {
    ghost use Rattle.std.specs.Prelude.{codes};
    ghost use Rattle.text_grammar.specs.Words;

    ghost begins = { Words.is_word (codes "answer") };

    fn begins_with(token: &Token) -> bool {
        is_fixed(TokenKind::Word, b"answer", token)
    }
}

impl Gathers for AnswerRule {
    ghost use Rattle.log_syntax.specs.Reading.{pushed};

    type Into = AnswerTreeList;

    ghost put = { pushed };

    fn put(into: &mut AnswerTreeList, tree: AnswerTree) -> Result<(), NoMemory> {
        into.push(tree)
    }
}
