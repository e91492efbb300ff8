ghost use Rattle.std.specs.Prelude.{◌≡◌, map};
ghost use Rattle.text_tokens.specs.Lexeme.{lexeme_of};
ghost use Rattle.text_grammar.specs.Reading.{Gives};
ghost use Rattle.spec_syntax.specs.Reading.{attrs_at, row_at};

use crate::attr::AttrRule;
use crate::{AttrTreeList, StatementTree};
use std::alloc::Global;
use text_grammar::{Named, Refusal, Rule, after_fixed, listed, name, string, symbol, word};
use text_tokens::{Token, TokenKind};

/// The declaration of a relation, from its word on.
pub enum RelationRule {}

impl Rule for RelationRule {
    ghost use Rattle.spec_syntax.specs.Reading.{relation_at};

    type Tree = StatementTree;

    ghost reader = { relation_at };

    #[tactic(auto, unfolding(crate::specs::Reading::relation_at))]
    fn read<'a>(
        alloc: Global,
        tokens: &'a [Token<'a>],
    ) -> Result<(StatementTree, &'a [Token<'a>]), Refusal<'a>> {
        let rest = word(b"relation", tokens)?;
        let (relation, rest) = name(alloc, rest)?;
        let rest = word(b"from", rest)?;
        let (document, rest) = string(alloc, rest)?;
        let (row, rest) = row(alloc, rest)?;
        let rest = word(b"entity", rest)?;
        let (entity, rest) = name(alloc, rest)?;
        let (attrs, rest) = attrs(alloc, rest)?;
        Ok((
            StatementTree::Relation {
                name: relation,
                document,
                row,
                entity,
                attrs,
            },
            rest,
        ))
    }
}

/// The column of the rows' names, where one is given.
#[tactic(auto, unfolding(crate::specs::Reading::row_at))]
fn row<'a>(
    alloc: Global,
    tokens: &'a [Token<'a>],
) -> Result<(Option<Named>, &'a [Token<'a>]), Refusal<'a>>
    ensures { Gives (λ x. (x.0, map lexeme_of x.1.now)) result (row_at (map lexeme_of tokens.now)) }
{
    match after_fixed(TokenKind::Word, b"row", tokens) {
        Some(rest) => {
            let (column, rest) = name(alloc, rest)?;
            Ok((Some(column), rest))
        }
        None => Ok((None, tokens)),
    }
}

/// The attributes, in parentheses.
#[tactic(auto, unfolding(crate::specs::Reading::attrs_at))]
fn attrs<'a>(
    alloc: Global,
    tokens: &'a [Token<'a>],
) -> Result<(AttrTreeList, &'a [Token<'a>]), Refusal<'a>>
    ensures { Gives (λ x. (x.0, map lexeme_of x.1.now)) result (attrs_at (map lexeme_of tokens.now)) }
{
    let rest = symbol(b"(", tokens)?;
    let (attrs, rest) = listed::<AttrRule>(alloc, TokenKind::Symbol, b",", rest)?;
    let rest = symbol(b")", rest)?;
    Ok((attrs, rest))
}
