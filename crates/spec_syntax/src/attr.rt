ghost use Rattle.std.specs.Prelude.{◌≡◌, map};
ghost use Rattle.text_tokens.specs.Lexeme.{lexeme_of};
ghost use Rattle.text_grammar.specs.Reading.{Gives, one};
ghost use Rattle.spec_syntax.specs.Grammar.{kind_named};

use crate::AttrTree;
use currency_base::ValueKind;
use std::alloc::Global;
use text_grammar::{Refusal, Rule, is_fixed, name, symbol};
use text_tokens::{Token, TokenKind};

/// An attribute and its kind.
pub enum AttrRule {}

impl Rule for AttrRule {
    ghost use Rattle.spec_syntax.specs.Reading.{attr_at};

    type Tree = AttrTree;

    ghost reader = { attr_at };

    #[tactic(auto, unfolding(crate::specs::Reading::attr_at))]
    fn read<'a>(
        alloc: Global,
        tokens: &'a [Token<'a>],
    ) -> Result<(AttrTree, &'a [Token<'a>]), Refusal<'a>> {
        let (name, rest) = name(alloc, tokens)?;
        let rest = symbol(b":", rest)?;
        let (kind, rest) = kind(rest)?;
        Ok((AttrTree { name, kind }, rest))
    }
}

/// Takes the word of a kind from the front of the tokens.
fn kind<'a>(tokens: &'a [Token<'a>]) -> Result<(ValueKind, &'a [Token<'a>]), Refusal<'a>>
    ensures { Gives (λ x. (x.0, map lexeme_of x.1.now)) result (one kind_named (map lexeme_of tokens.now)) }
{
    match tokens {
        [] => Err(Refusal::Syntax(tokens)),
        [first, rest @ ..] => match kind_in(first) {
            Some(kind) => Ok((kind, rest)),
            None => Err(Refusal::Syntax(tokens)),
        },
    }
}

/// The kind that a word names.
fn kind_in(token: &Token) -> Option<ValueKind>
    ensures { result ≡ kind_named (lexeme_of token.now) }
{
    if is_fixed(TokenKind::Word, b"text", token) {
        Some(ValueKind::Text)
    } else if is_fixed(TokenKind::Word, b"int", token) {
        Some(ValueKind::Int)
    } else {
        None
    }
}
