ghost use Rattle.std.specs.Prelude.{◌≡◌, IfOk, IfErr, None, Some, map, string_bytes};
ghost use Rattle.program_words.specs.Said.{said_of};
ghost use Rattle.program_words.specs.Words.{command_of};
ghost use Rattle.program_words.specs.declared.given.WordsFault.TheVariants.{Refused};

use crate::Command;
use crate::line::line;
use crate::rows::command_in;
use clap::error::ErrorKind;
use std::alloc::Global;

/// Why words give no command.
#[derive(Clone, Copy, Debug, PartialEq, Eq)]
pub enum WordsFault {
    /// They are no command with its options.
    Refused,
    NoMemory,
}

/// The command that words say, the first being the program's name. They are refused exactly where they say none.
pub fn command_given<'a>(alloc: Global, words: &'a [String]) -> Result<Command<'a>, WordsFault>
    ensures taken { IfOk result (λ c. command_of (map (λ w. string_bytes w) words.entry.now) ≡ Some (said_of c)) }
    ensures refused { IfErr result (λ e. e ≡ Refused → command_of (map (λ w. string_bytes w) words.entry.now) ≡ None) }
{
    let Ok(line) = line(alloc) else {
        return Err(WordsFault::NoMemory);
    };
    match line.try_get_matches_from(words) {
        Ok(matches) => match command_in(&matches) {
            Some(command) => Ok(command),
            None => Err(WordsFault::Refused),
        },
        Err(error) => match error.kind() {
            ErrorKind::OutOfMemory => Err(WordsFault::NoMemory),
            _ => Err(WordsFault::Refused),
        },
    }
}
