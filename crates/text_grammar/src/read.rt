ghost use Rattle.std.specs.Prelude.{◌≡◌, Bool, List, [], ◌∷◌, ◌++◌, map, Result};
ghost use Rattle.text_tokens.specs.Lexeme.{Lexeme, lexeme_of};
ghost use Rattle.text_grammar.specs.Reading.{Stop, Gives, changed, listed, many, starts};
ghost use Rattle.text_grammar.specs.Words;

use crate::Refusal;
use crate::tokens_at::after_fixed;
use currency_base::ItemList;
use std::alloc::Global;
use text_tokens::{Token, TokenKind};

/// A rule of a grammar: what it makes of the front of a list of tokens. A type that stands for the rule
/// implements it; no value of that type is made.
pub trait Rule {
    /// What the rule spells.
    type Tree: Drop;

    /// The reader of the rule.
    ghost reader: { List Lexeme → Result (Self.Tree × List Lexeme) Stop };

    /// The tree at the front of the tokens, and the tokens after it.
    fn read<'a>(
        alloc: Global,
        tokens: &'a [Token<'a>],
    ) -> Result<(Self::Tree, &'a [Token<'a>]), Refusal<'a>>
        ensures { Gives (λ x. (x.0, map lexeme_of x.1.now)) result (reader (map lexeme_of tokens.now)) };
}

/// A rule that can stand any number of times in a row.
pub trait Repeats: Rule {
    /// The test by which one more is read.
    ghost begins: { Lexeme → Bool };

    /// Is one more read where this token stands?
    fn begins_with(token: &Token) -> bool
        ensures { result ≡ begins (lexeme_of token.now) };
}

/// Reads a rule once or more with a fixed token between two: the trees, and the tokens after the last.
pub fn listed<'a, R: Rule>(
    alloc: Global,
    kind: TokenKind,
    text: &[u8],
    tokens: &'a [Token<'a>],
) -> Result<(ItemList<R::Tree>, &'a [Token<'a>]), Refusal<'a>>
    ensures { Gives (λ x. (x.0, map lexeme_of x.1.now)) result
        (listed (Words.is_fixed kind text.now) R.reader (map lexeme_of tokens.now)) }
{
    let mut items = ItemList::new(alloc);
    let mut rest = push_next::<R>(alloc, &mut items, tokens)?;
    for _ in 0..rest.len() {
        let Some(next) = after_fixed(kind, text, rest) else {
            return Ok((items, rest));
        };
        rest = push_next::<R>(alloc, &mut items, next)?;
    }
    Ok((items, rest))
}

/// Reads a rule as long as one more begins: the trees, and the tokens after the last.
pub fn many<'a, R: Repeats>(
    alloc: Global,
    tokens: &'a [Token<'a>],
) -> Result<(ItemList<R::Tree>, &'a [Token<'a>]), Refusal<'a>>
    ensures { Gives (λ x. (x.0, map lexeme_of x.1.now)) result (many R.begins R.reader (map lexeme_of tokens.now)) }
{
    let mut items = ItemList::new(alloc);
    if !begins::<R>(tokens) {
        return Ok((items, tokens));
    }
    let mut rest = push_next::<R>(alloc, &mut items, tokens)?;
    for _ in 1..tokens.len() {
        if !begins::<R>(rest) {
            return Ok((items, rest));
        }
        rest = push_next::<R>(alloc, &mut items, rest)?;
    }
    Ok((items, rest))
}

/// Does one more stand at the front of the tokens?
fn begins<R: Repeats>(tokens: &[Token]) -> bool
    ensures { result ≡ starts R.begins (map lexeme_of tokens.now) }
{
    match tokens {
        [] => false,
        [first, ..] => R::begins_with(first),
    }
}

/// Reads a rule once more and puts the tree behind the ones that are there: the tokens after it.
fn push_next<'a, R: Rule>(
    alloc: Global,
    items: &mut ItemList<R::Tree>,
    tokens: &'a [Token<'a>],
) -> Result<&'a [Token<'a>], Refusal<'a>>
    ensures { Gives (λ rest. (items.new, map lexeme_of rest.now)) result
        (changed (λ x. items.old ++ x ∷ []) (R.reader (map lexeme_of tokens.now))) }
{
    let (item, rest) = R::read(alloc, tokens)?;
    items.push(item)?;
    Ok(rest)
}
