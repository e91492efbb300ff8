ghost use Rattle.std.specs.Prelude.{◌≡◌, map, option_map};
ghost use Rattle.text_tokens.specs.Lexeme.{lexeme_of};
ghost use Rattle.text_grammar.specs.Reading.{Gives, passing, taken};
ghost use Rattle.text_grammar.specs.Words;

use crate::Refusal;
use text_tokens::{Token, TokenKind};

/// Is the token of this kind, with these very bytes?
pub fn is_fixed(kind: TokenKind, text: &[u8], token: &Token) -> bool
    ensures { result ≡ Words.is_fixed kind text.now (lexeme_of token.now) }
{
    token.kind == kind && token.text == text
}

/// The tokens after a fixed one, where the front of the tokens is that one.
pub fn after_fixed<'a>(
    kind: TokenKind,
    text: &[u8],
    tokens: &'a [Token<'a>],
) -> Option<&'a [Token<'a>]>
    ensures { option_map (λ rest. map lexeme_of rest.now) result
        ≡ taken (Words.is_fixed kind text.now) (map lexeme_of tokens.now) }
{
    match tokens {
        [] => None,
        [first, rest @ ..] => {
            if is_fixed(kind, text, first) {
                Some(rest)
            } else {
                None
            }
        }
    }
}

/// Takes a fixed token from the front of the tokens.
pub fn fixed<'a>(
    kind: TokenKind,
    text: &[u8],
    tokens: &'a [Token<'a>],
) -> Result<&'a [Token<'a>], Refusal<'a>>
    ensures { Gives (λ rest. (tt, map lexeme_of rest.now)) result
        (passing (Words.is_fixed kind text.now) (map lexeme_of tokens.now)) }
{
    match tokens {
        [] => Err(Refusal::Syntax(tokens)),
        [first, rest @ ..] => {
            if is_fixed(kind, text, first) {
                Ok(rest)
            } else {
                Err(Refusal::Syntax(tokens))
            }
        }
    }
}

/// Takes a fixed word from the front of the tokens.
pub fn word<'a>(text: &[u8], tokens: &'a [Token<'a>]) -> Result<&'a [Token<'a>], Refusal<'a>>
    ensures { Gives (λ rest. (tt, map lexeme_of rest.now)) result
        (passing (Words.is_word text.now) (map lexeme_of tokens.now)) }
{
    fixed(TokenKind::Word, text, tokens)
}

/// Takes a fixed symbol from the front of the tokens.
pub fn symbol<'a>(text: &[u8], tokens: &'a [Token<'a>]) -> Result<&'a [Token<'a>], Refusal<'a>>
    ensures { Gives (λ rest. (tt, map lexeme_of rest.now)) result
        (passing (Words.is_symbol text.now) (map lexeme_of tokens.now)) }
{
    fixed(TokenKind::Symbol, text, tokens)
}
