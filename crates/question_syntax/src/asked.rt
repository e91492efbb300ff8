ghost use Rattle.std.specs.Prelude.{◌≡◌, map};
ghost use Rattle.text_tokens.specs.Lexeme.{lexeme_of};
ghost use Rattle.text_grammar.specs.Reading.{Gives};
ghost use Rattle.question_syntax.specs.Reading.{pairs_at, table_at};

use crate::AskedTree;
use spec_syntax::OrderingRule;
use std::alloc::Global;
use text_grammar::{Refusal, Rule, is_fixed, name, string, word};
use text_tokens::{Token, TokenKind};

/// Pairs that are asked about.
pub enum AskedRule {}

impl Rule for AskedRule {
    ghost use Rattle.question_syntax.specs.Reading.{asked_at};

    type Tree = AskedTree;

    ghost reader = { asked_at };

    #[tactic(auto, unfolding(crate::specs::Reading::asked_at))]
    fn read<'a>(
        alloc: Global,
        tokens: &'a [Token<'a>],
    ) -> Result<(AskedTree, &'a [Token<'a>]), Refusal<'a>> {
        match tokens {
            [] => pairs(alloc, tokens),
            [first, ..] => {
                if is_fixed(TokenKind::Word, b"orders", first) {
                    table(alloc, tokens)
                } else {
                    pairs(alloc, tokens)
                }
            }
        }
    }
}

/// Reads a relation and the document of its pairs, from the word `orders` on.
#[tactic(auto, unfolding(crate::specs::Reading::table_at))]
fn table<'a>(
    alloc: Global,
    tokens: &'a [Token<'a>],
) -> Result<(AskedTree, &'a [Token<'a>]), Refusal<'a>>
    ensures { Gives (λ x. (x.0, map lexeme_of x.1.now)) result (table_at (map lexeme_of tokens.now)) }
{
    let rest = word(b"orders", tokens)?;
    let (relation, rest) = name(alloc, rest)?;
    let rest = word(b"from", rest)?;
    let (document, rest) = string(alloc, rest)?;
    Ok((AskedTree::Table { relation, document }, rest))
}

/// Reads pairs of one attribute.
#[tactic(auto, unfolding(crate::specs::Reading::pairs_at))]
fn pairs<'a>(
    alloc: Global,
    tokens: &'a [Token<'a>],
) -> Result<(AskedTree, &'a [Token<'a>]), Refusal<'a>>
    ensures { Gives (λ x. (x.0, map lexeme_of x.1.now)) result (pairs_at (map lexeme_of tokens.now)) }
{
    let (ordering, rest) = OrderingRule::read(alloc, tokens)?;
    Ok((AskedTree::Ordering(ordering), rest))
}
