ghost use Rattle.std.specs.Prelude.{map};
ghost use Rattle.text_tokens.specs.Lexeme.{lexeme_of};
ghost use Rattle.text_grammar.specs.Reading.{Gives};
ghost use Rattle.report_syntax.specs.Reading.{first_at, second_at, version_at};

use crate::completion::completions;
use crate::ended_word::ended_word;
use crate::verdict::verdict;
use crate::{ReportTree, Version};
use log_syntax::log_part;
use std::alloc::Global;
use text_grammar::{Refusal, Rule, is_fixed, symbol, word};
use text_tokens::{Token, TokenKind};

/// A report.
pub enum ReportRule {}

impl Rule for ReportRule {
    ghost use Rattle.report_syntax.specs.Reading.{report_at};

    type Tree = ReportTree;

    ghost reader = { report_at };

    #[tactic(auto, unfolding(crate::specs::Reading::report_at))]
    fn read<'a>(
        alloc: Global,
        tokens: &'a [Token<'a>],
    ) -> Result<(ReportTree, &'a [Token<'a>]), Refusal<'a>> {
        let rest = word(b"currency", tokens)?;
        let rest = word(b"report", rest)?;
        let (version, rest) = version(rest)?;
        let rest = symbol(b";", rest)?;
        let (verdict, rest) = verdict(alloc, rest)?;
        let (completions, rest) = completions(alloc, rest)?;
        let (log, rest) = log_part(alloc, rest)?;
        let rest = ended_word(b"end", rest)?;
        Ok((
            ReportTree {
                version,
                verdict,
                completions,
                log,
            },
            rest,
        ))
    }
}

/// Takes the version of a report's language from the front of the tokens.
#[tactic(auto, unfolding(crate::specs::Reading::version_at))]
fn version<'a>(tokens: &'a [Token<'a>]) -> Result<(Version, &'a [Token<'a>]), Refusal<'a>>
    ensures { Gives (λ x. (x.0, map lexeme_of x.1.now)) result (version_at (map lexeme_of tokens.now)) }
{
    match tokens {
        [] => second(tokens),
        [first_token, ..] => {
            if is_fixed(TokenKind::Word, b"1", first_token) {
                first(tokens)
            } else {
                second(tokens)
            }
        }
    }
}

/// The first version.
#[tactic(auto, unfolding(crate::specs::Reading::first_at))]
fn first<'a>(tokens: &'a [Token<'a>]) -> Result<(Version, &'a [Token<'a>]), Refusal<'a>>
    ensures { Gives (λ x. (x.0, map lexeme_of x.1.now)) result (first_at (map lexeme_of tokens.now)) }
{
    let rest = word(b"1", tokens)?;
    Ok((Version::First, rest))
}

/// The second version.
#[tactic(auto, unfolding(crate::specs::Reading::second_at))]
fn second<'a>(tokens: &'a [Token<'a>]) -> Result<(Version, &'a [Token<'a>]), Refusal<'a>>
    ensures { Gives (λ x. (x.0, map lexeme_of x.1.now)) result (second_at (map lexeme_of tokens.now)) }
{
    let rest = word(b"2", tokens)?;
    Ok((Version::Second, rest))
}
