ghost use Rattle.std.specs.Prelude.{◌≡◌, map};
ghost use Rattle.text_tokens.specs.Lexeme.{lexeme_of};
ghost use Rattle.text_grammar.specs.Reading.{Gives};
ghost use Rattle.log_syntax.specs.Numbers;
ghost use Rattle.log_syntax.specs.Reading.{cell_at, number_at};

use crate::trees::Cell;
use currency_base::{AttrId, Lit, RelId, RowId, read_int};
use text_grammar::Refusal;
use text_tokens::{Token, TokenKind};

/// Takes a number from the front of the tokens: the place that it counts from 1.
pub fn number<'a>(tokens: &'a [Token<'a>]) -> Result<(u32, &'a [Token<'a>]), Refusal<'a>>
    ensures { Gives (λ x. (x.0, map lexeme_of x.1.now)) result (number_at (map lexeme_of tokens.now)) }
{
    match tokens {
        [] => Err(Refusal::Syntax(tokens)),
        [first, rest @ ..] => match place_in(first) {
            Some(place) => Ok((place, rest)),
            None => Err(Refusal::Syntax(tokens)),
        },
    }
}

/// Takes the numbers of a relation, an attribute and a row from the front of the tokens.
#[tactic(auto, unfolding(crate::specs::Reading::cell_at))]
pub fn cell<'a>(tokens: &'a [Token<'a>]) -> Result<(Cell, &'a [Token<'a>]), Refusal<'a>>
    ensures { Gives (λ x. (x.0, map lexeme_of x.1.now)) result (cell_at (map lexeme_of tokens.now)) }
{
    let (rel, rest) = number(tokens)?;
    let (attr, rest) = number(rest)?;
    let (row, rest) = number(rest)?;
    Ok((
        Cell {
            rel: RelId(rel),
            attr: AttrId(attr),
            row: RowId(row),
        },
        rest,
    ))
}

/// The place that a token counts from 1.
pub fn place_in(token: &Token) -> Option<u32>
    ensures { result ≡ Numbers.place_in (lexeme_of token.now) }
{
    match token.kind {
        TokenKind::Word => match read_int(token.text) {
            Some(number) => place_of(number),
            None => None,
        },
        _ => None,
    }
}

/// The literal that a token writes.
pub fn lit_in(token: &Token) -> Option<Lit>
    ensures { result ≡ Numbers.lit_in (lexeme_of token.now) }
{
    match token.kind {
        TokenKind::Word | TokenKind::Negative => match read_int(token.text) {
            Some(number) => lit_of(number),
            None => None,
        },
        _ => None,
    }
}

/// The place that a number counts from 1, where it is one.
#[tactic(auto, unfolding(crate::specs::Numbers::place_of))]
fn place_of(number: i64) -> Option<u32>
    ensures { result ≡ Numbers.place_of number }
{
    if 0 < number && number <= 4_294_967_295 {
        Some((number - 1) as u32)
    } else {
        None
    }
}

/// The literal of a number, where it is one's.
#[tactic(auto, unfolding(crate::specs::Numbers::lit_of))]
fn lit_of(number: i64) -> Option<Lit>
    ensures { result ≡ Numbers.lit_of number }
{
    if 0 < number && number <= 2_147_483_648 {
        Some(Lit::new((number - 1) as u32, false))
    } else if number < 0 && -2_147_483_648 <= number {
        Some(Lit::new((-1 - number) as u32, true))
    } else {
        None
    }
}
