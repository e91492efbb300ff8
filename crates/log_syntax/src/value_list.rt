ghost use Rattle.std.specs.Prelude.{map};
ghost use Rattle.text_tokens.specs.Lexeme.{lexeme_of};
ghost use Rattle.text_grammar.specs.Reading.{Gives};
ghost use Rattle.log_syntax.specs.Reading.{constant_at, constants_at, some_constants_at, values_at};

use crate::fold::{Gathers, MOST, gather};
use currency_base::{NoMemory, Tuple, Value};
use std::alloc::Global;
use text_grammar::{Refusal, Repeats, Rule, is_fixed, symbol};
use text_tokens::{Token, TokenKind};

/// Takes values in brackets from the front of the tokens.
#[tactic(auto, unfolding(crate::specs::Reading::values_at))]
pub fn values<'a>(
    alloc: Global,
    tokens: &'a [Token<'a>],
) -> Result<(Tuple, &'a [Token<'a>]), Refusal<'a>>
    ensures { Gives (λ x. (x.0, map lexeme_of x.1.now)) result (values_at (map lexeme_of tokens.now)) }
{
    let rest = symbol(b"(", tokens)?;
    let (values, rest) = constants(alloc, rest)?;
    let rest = symbol(b")", rest)?;
    Ok((values, rest))
}

/// Takes the constants that stand in brackets, up to the one that closes.
#[tactic(auto, unfolding(crate::specs::Reading::constants_at))]
fn constants<'a>(
    alloc: Global,
    tokens: &'a [Token<'a>],
) -> Result<(Tuple, &'a [Token<'a>]), Refusal<'a>>
    ensures { Gives (λ x. (x.0, map lexeme_of x.1.now)) result (constants_at (map lexeme_of tokens.now)) }
{
    match tokens {
        [] => Ok((Tuple::new(alloc), tokens)),
        [first, ..] => {
            if is_fixed(TokenKind::Symbol, b")", first) {
                Ok((Tuple::new(alloc), tokens))
            } else {
                some_constants(alloc, tokens)
            }
        }
    }
}

/// Takes one constant or more from the front of the tokens.
#[tactic(auto, unfolding(crate::specs::Reading::some_constants_at))]
fn some_constants<'a>(
    alloc: Global,
    tokens: &'a [Token<'a>],
) -> Result<(Tuple, &'a [Token<'a>]), Refusal<'a>>
    ensures { Gives (λ x. (x.0, map lexeme_of x.1.now)) result (some_constants_at (map lexeme_of tokens.now)) }
{
    let mut values = Tuple::new(alloc);
    let (value, rest) = constant(alloc, tokens)?;
    values.push(value)?;
    gather::<FurtherRule>(alloc, MOST - 1, values, rest)
}

/// Takes a constant from the front of the tokens.
#[tactic(auto, unfolding(crate::specs::Reading::constant_at))]
fn constant<'a>(
    alloc: Global,
    tokens: &'a [Token<'a>],
) -> Result<(Value, &'a [Token<'a>]), Refusal<'a>>
    ensures { Gives (λ x. (x.0, map lexeme_of x.1.now)) result (constant_at (map lexeme_of tokens.now)) }
{
    let (constant, rest) = text_grammar::constant(alloc, tokens)?;
    Ok((constant.value, rest))
}

/// A comma and a constant.
enum FurtherRule {}

impl Rule for FurtherRule {
    ghost use Rattle.log_syntax.specs.Reading.{further_at};

    type Tree = Value;

    ghost reader = { further_at };

    #[tactic(auto, unfolding(crate::specs::Reading::further_at))]
    fn read<'a>(
        alloc: Global,
        tokens: &'a [Token<'a>],
    ) -> Result<(Value, &'a [Token<'a>]), Refusal<'a>> {
        let rest = symbol(b",", tokens)?;
        constant(alloc, rest)
    }
}

impl Repeats for FurtherRule {
    ghost use Rattle.std.specs.Prelude.{codes};
    ghost use Rattle.text_grammar.specs.Words;

    ghost begins = { Words.is_symbol (codes ",") };

    fn begins_with(token: &Token) -> bool {
        is_fixed(TokenKind::Symbol, b",", token)
    }
}

impl Gathers for FurtherRule {
    ghost use Rattle.log_syntax.specs.Reading.{pushed};

    type Into = Tuple;

    ghost put = { pushed };

    fn put(into: &mut Tuple, tree: Value) -> Result<(), NoMemory> {
        into.push(tree)
    }
}
