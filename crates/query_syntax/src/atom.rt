ghost use Rattle.std.specs.Prelude.{◌≡◌, map};
ghost use Rattle.text_tokens.specs.Lexeme.{lexeme_of};
ghost use Rattle.text_grammar.specs.Reading.{Gives};
ghost use Rattle.query_syntax.specs.Reading.{atom_after, atom_at, constant_place_at, variable_place_at};

use crate::{AtomTree, PlaceTree};
use std::alloc::Global;
use text_grammar::{
    Named, Refusal, Rule, constant, is_fixed, is_variable, listed, name, symbol, variable,
};
use text_tokens::{Token, TokenKind};

/// Reads a relation and what stands in its places.
#[tactic(auto, unfolding(crate::specs::Reading::atom_at))]
pub fn atom<'a>(
    alloc: Global,
    tokens: &'a [Token<'a>],
) -> Result<(AtomTree, &'a [Token<'a>]), Refusal<'a>>
    ensures { Gives (λ x. (x.0, map lexeme_of x.1.now)) result (atom_at (map lexeme_of tokens.now)) }
{
    let (relation, rest) = name(alloc, tokens)?;
    rest_of_atom(alloc, relation, rest)
}

/// Reads the places of a relation, in parentheses.
#[tactic(auto, unfolding(crate::specs::Reading::atom_after))]
fn rest_of_atom<'a>(
    alloc: Global,
    relation: Named,
    tokens: &'a [Token<'a>],
) -> Result<(AtomTree, &'a [Token<'a>]), Refusal<'a>>
    ensures { Gives (λ x. (x.0, map lexeme_of x.1.now)) result (atom_after relation (map lexeme_of tokens.now)) }
{
    let rest = symbol(b"(", tokens)?;
    let (places, rest) = listed::<PlaceRule>(alloc, TokenKind::Symbol, b",", rest)?;
    let rest = symbol(b")", rest)?;
    Ok((AtomTree { relation, places }, rest))
}

/// What stands in a place of an atom: a variable, `_` or a constant.
enum PlaceRule {}

impl Rule for PlaceRule {
    ghost use Rattle.query_syntax.specs.Reading.{place_at};

    type Tree = PlaceTree;

    ghost reader = { place_at };

    #[tactic(auto, unfolding(crate::specs::Reading::place_at))]
    fn read<'a>(
        alloc: Global,
        tokens: &'a [Token<'a>],
    ) -> Result<(PlaceTree, &'a [Token<'a>]), Refusal<'a>> {
        match tokens {
            [] => constant_place(alloc, tokens),
            [first, rest @ ..] => {
                if is_variable(first) {
                    variable_place(alloc, tokens)
                } else if is_fixed(TokenKind::Word, b"_", first) {
                    Ok((PlaceTree::Any { line: first.line }, rest))
                } else {
                    constant_place(alloc, tokens)
                }
            }
        }
    }
}

/// Reads a variable as a place.
#[tactic(auto, unfolding(crate::specs::Reading::variable_place_at))]
fn variable_place<'a>(
    alloc: Global,
    tokens: &'a [Token<'a>],
) -> Result<(PlaceTree, &'a [Token<'a>]), Refusal<'a>>
    ensures { Gives (λ x. (x.0, map lexeme_of x.1.now)) result (variable_place_at (map lexeme_of tokens.now)) }
{
    let (var, rest) = variable(alloc, tokens)?;
    Ok((PlaceTree::Var(var), rest))
}

/// Reads a constant as a place.
#[tactic(auto, unfolding(crate::specs::Reading::constant_place_at))]
fn constant_place<'a>(
    alloc: Global,
    tokens: &'a [Token<'a>],
) -> Result<(PlaceTree, &'a [Token<'a>]), Refusal<'a>>
    ensures { Gives (λ x. (x.0, map lexeme_of x.1.now)) result (constant_place_at (map lexeme_of tokens.now)) }
{
    let (constant, rest) = constant(alloc, tokens)?;
    Ok((PlaceTree::Constant(constant), rest))
}
