ghost use Rattle.std.specs.Prelude.{map};
ghost use Rattle.text_tokens.specs.Lexeme.{lexeme_of};
ghost use Rattle.text_grammar.specs.Reading.{Gives};
ghost use Rattle.report_syntax.specs.Reading.{attribute_at};

use std::alloc::Global;
use text_grammar::{Named, Refusal, name, symbol};
use text_tokens::Token;

/// The names of an attribute: its relation's and its own.
#[derive(Drop)]
pub struct AttributeTree {
    pub relation: Named,
    pub attr: Named,
}

/// Takes an attribute from the front of the tokens.
#[tactic(auto, unfolding(crate::specs::Reading::attribute_at))]
pub fn attribute<'a>(
    alloc: Global,
    tokens: &'a [Token<'a>],
) -> Result<(AttributeTree, &'a [Token<'a>]), Refusal<'a>>
    ensures { Gives (λ x. (x.0, map lexeme_of x.1.now)) result (attribute_at (map lexeme_of tokens.now)) }
{
    let (relation, rest) = name(alloc, tokens)?;
    let rest = symbol(b".", rest)?;
    let (attr, rest) = name(alloc, rest)?;
    Ok((AttributeTree { relation, attr }, rest))
}
