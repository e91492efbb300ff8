ghost use Rattle.std.specs.Prelude.{◌≡◌, false, IfOk, map, option_map};
ghost use Rattle.text_tokens.specs.Lexeme.{lexeme_of};
ghost use Rattle.text_grammar.specs.Reading.{Gives, one};
ghost use Rattle.text_grammar.specs.Words;

use crate::{Named, Refusal, Rule};
use currency_base::{ByteList, Name, NoMemory, is_text};
use std::alloc::Global;
use text_tokens::{Token, TokenKind};

/// Takes a name from the front of the tokens: a word that is not reserved, or a string.
pub fn name<'a>(
    alloc: Global,
    tokens: &'a [Token<'a>],
) -> Result<(Named, &'a [Token<'a>]), Refusal<'a>>
    ensures { Gives (λ x. (x.0, map lexeme_of x.1.now)) result (one Words.named (map lexeme_of tokens.now)) }
{
    match tokens {
        [] => Err(Refusal::Syntax(tokens)),
        [first, rest @ ..] => match name_in(alloc, first)? {
            Some(name) => Ok((name, rest)),
            None => Err(Refusal::Syntax(tokens)),
        },
    }
}

/// Takes a string from the front of the tokens.
pub fn string<'a>(
    alloc: Global,
    tokens: &'a [Token<'a>],
) -> Result<(Named, &'a [Token<'a>]), Refusal<'a>>
    ensures { Gives (λ x. (x.0, map lexeme_of x.1.now)) result (one Words.quoted (map lexeme_of tokens.now)) }
{
    match tokens {
        [] => Err(Refusal::Syntax(tokens)),
        [first, rest @ ..] => match string_in(alloc, first)? {
            Some(content) => Ok((content, rest)),
            None => Err(Refusal::Syntax(tokens)),
        },
    }
}

/// The rule of a name, where names stand in a list.
pub enum NameRule {}

impl Rule for NameRule {
    ghost use Rattle.text_grammar.specs.Reading.{one};
    ghost use Rattle.text_grammar.specs.Words;

    type Tree = Named;

    ghost reader = { one Words.named };

    fn read<'a>(
        alloc: Global,
        tokens: &'a [Token<'a>],
    ) -> Result<(Named, &'a [Token<'a>]), Refusal<'a>> {
        name(alloc, tokens)
    }
}

/// The name that a token spells.
fn name_in(alloc: Global, token: &Token) -> Result<Option<Named>, NoMemory>
    ensures { IfOk result (λ name. name ≡ Words.named (lexeme_of token.now)) }
{
    match token.kind {
        TokenKind::Word => {
            if is_reserved(token.text) {
                Ok(None)
            } else {
                on_line(alloc, token.text, token.line)
            }
        }
        _ => string_in(alloc, token),
    }
}

/// The content of a string token.
pub(crate) fn string_in(alloc: Global, token: &Token) -> Result<Option<Named>, NoMemory>
    ensures { IfOk result (λ content. content ≡ Words.quoted (lexeme_of token.now)) }
{
    match token.kind {
        TokenKind::Text => {
            let bytes = content(alloc, token.text)?;
            on_line(alloc, bytes.as_slice(), token.line)
        }
        _ => Ok(None),
    }
}

/// Bytes as a name on a line, where they are text.
pub(crate) fn on_line(alloc: Global, bytes: &[u8], line: u32) -> Result<Option<Named>, NoMemory>
    ensures { IfOk result (λ name. name ≡ option_map (Words.on_line line) (Words.as_text bytes.now)) }
{
    if !is_text(bytes) {
        return Ok(None);
    }
    let name = Name::from_bytes(alloc, bytes)?;
    Ok(Some(Named { name, line }))
}

/// Is the word one of those that are no names?
pub(crate) fn is_reserved(word: &[u8]) -> bool
    ensures { result ≡ Words.is_reserved word.now }
{
    word == b"if".as_slice() || word == b"false".as_slice() || word == b"orders".as_slice()
}

/// What stands between the quotes of a string, where two quotes stand for one.
fn content(alloc: Global, text: &[u8]) -> Result<ByteList, NoMemory>
    ensures { IfOk result (λ bytes. bytes ≡ Words.content text.now) }
{
    match text {
        [] => Ok(ByteList::new(alloc)),
        [_, inside @ ..] => unquoted(alloc, inside),
    }
}

/// Bytes without the first of two quotes, and without the one that closes a string.
fn unquoted(alloc: Global, bytes: &[u8]) -> Result<ByteList, NoMemory>
    ensures { IfOk result (λ content. content ≡ Words.unquoted false bytes.now) }
{
    let mut content = ByteList::new(alloc);
    let mut quoted = false;
    for byte in bytes {
        if *byte == b'"' && !quoted {
            quoted = true;
        } else {
            quoted = false;
            content.push(*byte)?;
        }
    }
    Ok(content)
}
