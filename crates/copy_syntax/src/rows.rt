ghost use Rattle.std.specs.Prelude.{◌≡◌, map};
ghost use Rattle.text_tokens.specs.Lexeme.{lexeme_of};
ghost use Rattle.text_grammar.specs.Reading.{Gives};
ghost use Rattle.copy_syntax.specs.Reading.{inline_at, mappings_at, table_at};

use crate::Mappings;
use std::alloc::Global;
use text_grammar::{NamedPair, Refusal, Rule, is_fixed, listed, name, string, symbol, word};
use text_tokens::{Token, TokenKind};

/// Reads which rows are copied: a colon goes on with the rows themselves, and else a document lists them.
#[tactic(auto, unfolding(crate::specs::Reading::mappings_at))]
pub fn mappings<'a>(
    alloc: Global,
    tokens: &'a [Token<'a>],
) -> Result<(Mappings, &'a [Token<'a>]), Refusal<'a>>
    ensures { Gives (λ x. (x.0, map lexeme_of x.1.now)) result (mappings_at (map lexeme_of tokens.now)) }
{
    match tokens {
        [] => table(alloc, tokens),
        [first, ..] => {
            if is_fixed(TokenKind::Symbol, b":", first) {
                inline(alloc, tokens)
            } else {
                table(alloc, tokens)
            }
        }
    }
}

/// Reads the rows that are copied, from the colon on.
#[tactic(auto, unfolding(crate::specs::Reading::inline_at))]
fn inline<'a>(
    alloc: Global,
    tokens: &'a [Token<'a>],
) -> Result<(Mappings, &'a [Token<'a>]), Refusal<'a>>
    ensures { Gives (λ x. (x.0, map lexeme_of x.1.now)) result (inline_at (map lexeme_of tokens.now)) }
{
    let rest = symbol(b":", tokens)?;
    let (pairs, rest) = listed::<MappingRule>(alloc, TokenKind::Symbol, b",", rest)?;
    Ok((Mappings::Inline(pairs), rest))
}

/// Reads the name of the document that lists the rows, from the word `using` on.
#[tactic(auto, unfolding(crate::specs::Reading::table_at))]
fn table<'a>(
    alloc: Global,
    tokens: &'a [Token<'a>],
) -> Result<(Mappings, &'a [Token<'a>]), Refusal<'a>>
    ensures { Gives (λ x. (x.0, map lexeme_of x.1.now)) result (table_at (map lexeme_of tokens.now)) }
{
    let rest = word(b"using", tokens)?;
    let (document, rest) = string(alloc, rest)?;
    Ok((Mappings::Table(document), rest))
}

/// A row of the target, and the row of the source that it is copied from.
enum MappingRule {}

impl Rule for MappingRule {
    ghost use Rattle.copy_syntax.specs.Reading.{mapping_at};

    type Tree = NamedPair;

    ghost reader = { mapping_at };

    #[tactic(auto, unfolding(crate::specs::Reading::mapping_at))]
    fn read<'a>(
        alloc: Global,
        tokens: &'a [Token<'a>],
    ) -> Result<(NamedPair, &'a [Token<'a>]), Refusal<'a>> {
        let (first, rest) = name(alloc, tokens)?;
        let rest = word(b"from", rest)?;
        let (second, rest) = name(alloc, rest)?;
        Ok((NamedPair { first, second }, rest))
    }
}
