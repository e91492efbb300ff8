ghost use Rattle.std.specs.Prelude.{◌≡◌, ◌<◌, Bool, List, map, OnOk};
ghost use Rattle.text_tokens.specs.Lexeme.{Lexeme, lexeme_of};
ghost use Rattle.text_grammar.specs.Reading.{Gives, changed, starts};
ghost use Rattle.log_syntax.specs.Reading.{gathered};

use currency_base::NoMemory;
use std::alloc::Global;
use text_grammar::{Refusal, Repeats};
use text_tokens::Token;

/// At most so many items stand where a rule may stand any number of times.
pub const MOST: u32 = 4_294_967_294;

/// A rule that can stand any number of times in a row, and what holds its trees.
pub trait Gathers: Repeats {
    /// What holds the trees.
    type Into: Drop;

    /// What holds one tree more.
    ghost put: { Self.Into → Self.Tree → Self.Into };

    /// Puts in one tree more.
    fn put(into: &mut Self::Into, tree: Self::Tree) -> Result<(), NoMemory>
        ensures { OnOk result (into.new ≡ put into.old tree) };
}

/// Reads a rule as long as one more begins, but at most so many times, and puts the trees into what holds
/// them: it, and the tokens after the last.
#[tactic(auto, using(crate::proofs::Gathering::gathered_more, crate::proofs::Gathering::gathered_stops, crate::proofs::Gathering::gathered_ends, crate::proofs::Gathering::gathered_counted))]
pub fn gather<'a, R: Gathers>(
    alloc: Global,
    most: u32,
    into: R::Into,
    tokens: &'a [Token<'a>],
) -> Result<(R::Into, &'a [Token<'a>]), Refusal<'a>>
    requires { 0 < most }
    ensures { Gives (λ x. (x.0, map lexeme_of x.1.now)) result
        (gathered R.put into most R.begins R.reader (map lexeme_of tokens.now)) }
{
    let mut held = into;
    if !begins::<R>(tokens) {
        return Ok((held, tokens));
    }
    let mut rest = put_next::<R>(alloc, &mut held, tokens)?;
    for _ in 1..most {
        if !begins::<R>(rest) {
            return Ok((held, rest));
        }
        rest = put_next::<R>(alloc, &mut held, rest)?;
    }
    Ok((held, rest))
}

/// Does one more stand at the front of the tokens?
fn begins<R: Gathers>(tokens: &[Token]) -> bool
    ensures { result ≡ starts R.begins (map lexeme_of tokens.now) }
{
    match tokens {
        [] => false,
        [first, ..] => R::begins_with(first),
    }
}

/// Reads a rule once more and puts in the tree: the tokens after it.
fn put_next<'a, R: Gathers>(
    alloc: Global,
    held: &mut R::Into,
    tokens: &'a [Token<'a>],
) -> Result<&'a [Token<'a>], Refusal<'a>>
    ensures { Gives (λ rest. (held.new, map lexeme_of rest.now)) result
        (changed (λ x. R.put held.old x) (R.reader (map lexeme_of tokens.now))) }
{
    let (tree, rest) = R::read(alloc, tokens)?;
    R::put(held, tree)?;
    Ok(rest)
}
