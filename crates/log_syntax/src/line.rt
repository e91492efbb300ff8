ghost use Rattle.std.specs.Prelude.{map};
ghost use Rattle.text_tokens.specs.Lexeme.{lexeme_of};
ghost use Rattle.text_grammar.specs.Reading.{Gives, one};
ghost use Rattle.log_syntax.specs.Grammar.{word_line};

use text_grammar::{Refusal, is_fixed};
use text_tokens::{Token, TokenKind};

/// Takes a fixed word from the front of the tokens: its line, and the tokens after it.
pub fn word_on<'a>(
    text: &[u8],
    tokens: &'a [Token<'a>],
) -> Result<(u32, &'a [Token<'a>]), Refusal<'a>>
    ensures { Gives (λ x. (x.0, map lexeme_of x.1.now)) result (one (word_line text.now) (map lexeme_of tokens.now)) }
{
    match tokens {
        [] => Err(Refusal::Syntax(tokens)),
        [first, rest @ ..] => {
            if is_fixed(TokenKind::Word, text, first) {
                Ok((first.line, rest))
            } else {
                Err(Refusal::Syntax(tokens))
            }
        }
    }
}
