ghost use Rattle.std.specs.Prelude.{◌≡◌, IfOk, map, option_map};
ghost use Rattle.text_tokens.specs.Lexeme.{lexeme_of};
ghost use Rattle.currency_base.specs.Number.{int_of};
ghost use Rattle.text_grammar.specs.Reading.{Gives, one};
ghost use Rattle.text_grammar.specs.Words;

use crate::names::{is_reserved, on_line, string_in};
use crate::{Const, Named, Refusal, Rule};
use currency_base::{NoMemory, Value, read_int};
use std::alloc::Global;
use text_tokens::{Token, TokenKind};

/// Takes a variable from the front of the tokens: a word that begins with a letter or `_`, other than `_`
/// alone and the reserved words.
pub fn variable<'a>(
    alloc: Global,
    tokens: &'a [Token<'a>],
) -> Result<(Named, &'a [Token<'a>]), Refusal<'a>>
    ensures { Gives (λ x. (x.0, map lexeme_of x.1.now)) result (one Words.variable (map lexeme_of tokens.now)) }
{
    match tokens {
        [] => Err(Refusal::Syntax(tokens)),
        [first, rest @ ..] => match variable_in(alloc, first)? {
            Some(variable) => Ok((variable, rest)),
            None => Err(Refusal::Syntax(tokens)),
        },
    }
}

/// Takes a constant from the front of the tokens: a number of 64 bits, or a string.
pub fn constant<'a>(
    alloc: Global,
    tokens: &'a [Token<'a>],
) -> Result<(Const, &'a [Token<'a>]), Refusal<'a>>
    ensures { Gives (λ x. (x.0, map lexeme_of x.1.now)) result (one Words.constant (map lexeme_of tokens.now)) }
{
    match tokens {
        [] => Err(Refusal::Syntax(tokens)),
        [first, rest @ ..] => match constant_in(alloc, first)? {
            Some(constant) => Ok((constant, rest)),
            None => Err(Refusal::Syntax(tokens)),
        },
    }
}

/// The rule of a variable, where variables stand in a list.
pub enum VariableRule {}

impl Rule for VariableRule {
    ghost use Rattle.text_grammar.specs.Reading.{one};
    ghost use Rattle.text_grammar.specs.Words;

    type Tree = Named;

    ghost reader = { one Words.variable };

    fn read<'a>(
        alloc: Global,
        tokens: &'a [Token<'a>],
    ) -> Result<(Named, &'a [Token<'a>]), Refusal<'a>> {
        variable(alloc, tokens)
    }
}

/// Is the token a word that is a variable?
pub fn is_variable(token: &Token) -> bool
    ensures { result ≡ Words.is_variable_token (lexeme_of token.now) }
{
    token.kind == TokenKind::Word && names_variable(token.text)
}

/// The variable that a token spells.
fn variable_in(alloc: Global, token: &Token) -> Result<Option<Named>, NoMemory>
    ensures { IfOk result (λ variable. variable ≡ Words.variable (lexeme_of token.now)) }
{
    match token.kind {
        TokenKind::Word => {
            if names_variable(token.text) {
                on_line(alloc, token.text, token.line)
            } else {
                Ok(None)
            }
        }
        _ => Ok(None),
    }
}

/// Is the word a variable?
fn names_variable(word: &[u8]) -> bool
    ensures { result ≡ Words.is_variable word.now }
{
    begins_with_letter(word) && !is_reserved(word) && word != b"_".as_slice()
}

/// Does the word begin with a letter or `_`?
fn begins_with_letter(word: &[u8]) -> bool
    ensures { result ≡ Words.begins_with_letter word.now }
{
    match word {
        [] => false,
        [first, ..] => first.is_ascii_alphabetic() || *first == b'_',
    }
}

/// The constant that a token spells.
fn constant_in(alloc: Global, token: &Token) -> Result<Option<Const>, NoMemory>
    ensures { IfOk result (λ constant. constant ≡ Words.constant (lexeme_of token.now)) }
{
    match token.kind {
        TokenKind::Text => match string_in(alloc, token)? {
            Some(content) => Ok(Some(Const {
                value: Value::Text(content.name),
                line: content.line,
            })),
            None => Ok(None),
        },
        TokenKind::Word | TokenKind::Negative => Ok(number(token.text, token.line)),
        _ => Ok(None),
    }
}

/// The number that a word writes, on a line.
fn number(text: &[u8], line: u32) -> Option<Const>
    ensures { result ≡ option_map (λ n. Words.value_on_line line (Words.int_value n)) (int_of text.now) }
{
    match read_int(text) {
        Some(number) => Some(Const {
            value: Value::Int(number),
            line,
        }),
        None => None,
    }
}
