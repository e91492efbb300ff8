ghost use Rattle.std.specs.Prelude.{◌≡◌, map};
ghost use Rattle.text_tokens.specs.Lexeme.{lexeme_of};
ghost use Rattle.text_grammar.specs.Reading.{Gives, GivesWhole};
ghost use Rattle.log_syntax.specs.Grammar;
ghost use Rattle.log_syntax.specs.Reading.{log_at, log_of, log_part_at};

use crate::statement::statements;
use crate::step::steps;
use crate::{LineList, ReadLog};
use refutation_log::Log;
use std::alloc::Global;
use text_grammar::{Refusal, is_fixed, symbol, word};
use text_tokens::{Token, TokenKind};

/// The log that all tokens spell; no token is the empty log.
pub fn log_or_nothing<'a>(alloc: Global, tokens: &'a [Token<'a>]) -> Result<ReadLog, Refusal<'a>>
    ensures { GivesWhole result (log_of (map lexeme_of tokens.now)) }
{
    let (log, rest) = log_part(alloc, tokens)?;
    if rest.is_empty() {
        Ok(log)
    } else {
        Err(Refusal::Syntax(rest))
    }
}

/// Takes a log from the front of the tokens, where the word `log` stands there; else it is the empty log, and
/// no token is taken. The time is linear in the tokens' text.
#[tactic(auto, unfolding(crate::specs::Reading::log_part_at))]
pub fn log_part<'a>(
    alloc: Global,
    tokens: &'a [Token<'a>],
) -> Result<(ReadLog, &'a [Token<'a>]), Refusal<'a>>
    ensures { Gives (λ x. (x.0, map lexeme_of x.1.now)) result (log_part_at (map lexeme_of tokens.now)) }
{
    match tokens {
        [] => Ok((no_log(alloc), tokens)),
        [first, ..] => {
            if is_fixed(TokenKind::Word, b"log", first) {
                log(alloc, tokens)
            } else {
                Ok((no_log(alloc), tokens))
            }
        }
    }
}

/// The log where none is written.
fn no_log(alloc: Global) -> ReadLog
    ensures { result ≡ Grammar.no_log }
{
    ReadLog {
        log: Log::new(alloc),
        statements: LineList::new(alloc),
        steps: LineList::new(alloc),
    }
}

/// Takes a log from the front of the tokens.
#[tactic(auto, unfolding(crate::specs::Reading::log_at))]
fn log<'a>(
    alloc: Global,
    tokens: &'a [Token<'a>],
) -> Result<(ReadLog, &'a [Token<'a>]), Refusal<'a>>
    ensures { Gives (λ x. (x.0, map lexeme_of x.1.now)) result (log_at (map lexeme_of tokens.now)) }
{
    let rest = word(b"log", tokens)?;
    let rest = symbol(b";", rest)?;
    let (said, rest) = statements(alloc, rest)?;
    let (steps, rest) = steps(alloc, rest)?;
    let log = ReadLog {
        log: Log {
            answers: said.answers,
            statements: said.statements,
            steps: steps.steps,
        },
        statements: said.lines,
        steps: steps.lines,
    };
    Ok((log, rest))
}
