ghost use Rattle.std.specs.Prelude.{map};
ghost use Rattle.text_tokens.specs.Lexeme.{lexeme_of};
ghost use Rattle.text_grammar.specs.Reading.{Gives};
ghost use Rattle.report_syntax.specs.Reading.{ended_word_at};

use text_grammar::{Refusal, symbol, word};
use text_tokens::Token;

/// Takes a word and a semicolon from the front of the tokens.
pub fn ended_word<'a>(text: &[u8], tokens: &'a [Token<'a>]) -> Result<&'a [Token<'a>], Refusal<'a>>
    ensures { Gives (λ rest. (tt, map lexeme_of rest.now)) result (ended_word_at text.now (map lexeme_of tokens.now)) }
{
    let rest = word(text, tokens)?;
    let rest = symbol(b";", rest)?;
    Ok(rest)
}
