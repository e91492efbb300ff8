ghost use Rattle.std.specs.Prelude.{◌≡◌, ◌⊎◌, IfOk, IfErr, map};
ghost use Rattle.text_tokens.specs.Lexeme.{lexeme_of};
ghost use Rattle.log_syntax.specs.Reads;
ghost use Rattle.log_syntax.specs.Reads.{RefusesLog, SpellsLogOrNothing};

use crate::log::log_or_nothing;
use refutation_log::Log;
use std::alloc::Global;
use text_grammar::Refusal;
use text_tokens::{TextFault, Token};

/// The log that the tokens spell, all of them; no token is the empty log.
///
/// Syntax comes where they spell none, at the line of the first token at which no log goes on, or at the
/// line `end` where the tokens end too early. NotUtf8 never comes. The time is linear in the tokens'
/// text.
#[tactic(auto, using(crate::proofs::WholeLogs::is_spelled, crate::proofs::WholeLogs::is_refused_on))]
pub fn read_log(alloc: Global, tokens: &[Token], end: u32) -> Result<Log, TextFault>
    ensures read { IfOk result (λ log. SpellsLogOrNothing log (map lexeme_of tokens.now)) }
    ensures refused { IfErr result (λ e. (e ≡ TextFault.NoMemory) ⊎ RefusesLog (map lexeme_of tokens.now) end e) }
{
    match log_or_nothing(alloc, tokens) {
        Ok(read) => Ok(read.log),
        Err(Refusal::Syntax(left)) => Err(TextFault::Syntax {
            line: line_at(end, left),
        }),
        Err(Refusal::NoMemory) => Err(TextFault::NoMemory),
    }
}

/// The line of a refused place: that of the first token left, or the one where the tokens end.
fn line_at(end: u32, left: &[Token]) -> u32
    ensures { result ≡ Reads.line_at end (map lexeme_of left.now) }
{
    match left {
        [] => end,
        [first, ..] => first.line,
    }
}
