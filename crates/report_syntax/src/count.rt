ghost use Rattle.std.specs.Prelude.{◌≡◌, map};
ghost use Rattle.text_tokens.specs.Lexeme.{lexeme_of};
ghost use Rattle.text_grammar.specs.Reading.{Gives, one};
ghost use Rattle.report_syntax.specs.Spells;

use text_grammar::Refusal;
use text_tokens::{Token, TokenKind};

/// Takes a number of 64 bits from the front of the tokens.
pub fn count<'a>(tokens: &'a [Token<'a>]) -> Result<(u64, &'a [Token<'a>]), Refusal<'a>>
    ensures { Gives (λ x. (x.0, map lexeme_of x.1.now)) result (one Spells.count_in (map lexeme_of tokens.now)) }
{
    match tokens {
        [] => Err(Refusal::Syntax(tokens)),
        [first, rest @ ..] => match count_in(first) {
            Some(counted) => Ok((counted, rest)),
            None => Err(Refusal::Syntax(tokens)),
        },
    }
}

/// The number of 64 bits that a token writes.
fn count_in(token: &Token) -> Option<u64>
    ensures { result ≡ Spells.count_in (lexeme_of token.now) }
{
    match token.kind {
        TokenKind::Word => read_count(token.text),
        _ => None,
    }
}

/// The number that one or more ASCII digits write; zeros may lead. `None` exactly where the bytes are not
/// such a text, or the number does not fit 64 bits.
fn read_count(bytes: &[u8]) -> Option<u64>
    ensures { result ≡ Spells.count_of bytes.now }
{
    if !bytes.is_empty() && bytes[0] == b'+' {
        return None;
    }
    match std::str::from_utf8(bytes) {
        Ok(text) => text.parse::<u64>().ok(),
        Err(_) => None,
    }
}
