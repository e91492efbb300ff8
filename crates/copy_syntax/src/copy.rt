ghost use Rattle.std.specs.Prelude.{◌≡◌, map};
ghost use Rattle.text_tokens.specs.Lexeme.{lexeme_of};
ghost use Rattle.text_grammar.specs.Reading.{Gives};
ghost use Rattle.copy_syntax.specs.Reading.{names_at};

use crate::CopyTree;
use crate::rows::mappings;
use std::alloc::Global;
use text_grammar::{NameRule, NamedList, Refusal, Rule, listed, name, symbol, word};
use text_tokens::{Token, TokenKind};

/// A copy, from its word on.
pub enum CopyRule {}

impl Rule for CopyRule {
    ghost use Rattle.copy_syntax.specs.Reading.{copy_at};

    type Tree = CopyTree;

    ghost reader = { copy_at };

    #[tactic(auto, unfolding(crate::specs::Reading::copy_at))]
    fn read<'a>(
        alloc: Global,
        tokens: &'a [Token<'a>],
    ) -> Result<(CopyTree, &'a [Token<'a>]), Refusal<'a>> {
        let rest = word(b"copy", tokens)?;
        let (copy, rest) = name(alloc, rest)?;
        let rest = word(b"into", rest)?;
        let (target, rest) = name(alloc, rest)?;
        let (target_attrs, rest) = names(alloc, rest)?;
        let rest = word(b"from", rest)?;
        let (source, rest) = name(alloc, rest)?;
        let (source_attrs, rest) = names(alloc, rest)?;
        let (mappings, rest) = mappings(alloc, rest)?;
        Ok((
            CopyTree {
                name: copy,
                target,
                target_attrs,
                source,
                source_attrs,
                mappings,
            },
            rest,
        ))
    }
}

/// Names, in parentheses.
#[tactic(auto, unfolding(crate::specs::Reading::names_at))]
fn names<'a>(
    alloc: Global,
    tokens: &'a [Token<'a>],
) -> Result<(NamedList, &'a [Token<'a>]), Refusal<'a>>
    ensures { Gives (λ x. (x.0, map lexeme_of x.1.now)) result (names_at (map lexeme_of tokens.now)) }
{
    let rest = symbol(b"(", tokens)?;
    let (names, rest) = listed::<NameRule>(alloc, TokenKind::Symbol, b",", rest)?;
    let rest = symbol(b")", rest)?;
    Ok((names, rest))
}
