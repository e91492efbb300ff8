ghost use Rattle.std.specs.Prelude.{◌≡◌, ◌<◌, ◌⊎◌, ◌-◌, ℕ, Bool, true, List, Option, None, Some, IfOk, IfErr, if◌then◌else◌, map, string_bytes};
ghost use Rattle.program_words.specs.Said.{said_of};
ghost use Rattle.currency_cli.specs.Guides.{IsLeft, guide_of};
ghost use Rattle.currency_cli.specs.Words.{IsInRange, command_for, is_guide, with_guides};
ghost use Rattle.solver_guides.specs.Rings.{count_of};

use command_stages::Trouble;
use program_words::{Command, WordsFault, command_given, numbers_are_in_range};
use solver_guides::{Guide, Guides};
use std::alloc::Global;

// Keeps the one guide that is asked for, counted from 1, if one is. Answers whether it is there; where it is not, all stay.
fn keep_guide(guides: &mut Guides, guide: Option<u64>) -> bool
    ensures there { result ≡ is_guide (count_of guides.old) guide }
    ensures left { result ≡ true → IsLeft (λ guide. (⟦<dyn Guide as Guide>⟧ guide.vtable).choice guide.value)
        guides.old guides.new guide }
{
    let Some(number) = guide else {
        return true;
    };
    // guides count from 1
    let Some(place) = number.checked_sub(1) else {
        return false;
    };
    if place >= guides.len() as u64 {
        return false;
    }
    guides.keep(place as usize);
    true
}

// Keeps the guide that a command asks for, if it asks for one. Answers whether it is there.
fn keep_for(guides: &mut Guides, command: &Command<'_>) -> bool
    ensures there { with_guides (count_of guides.old) (said_of command.now)
        ≡ (if result then Some (said_of command.now) else None) }
    ensures left { result ≡ true → IsLeft (λ guide. (⟦<dyn Guide as Guide>⟧ guide.vtable).choice guide.value)
        guides.old guides.new (guide_of (said_of command.now)) }
{
    match command {
        Command::Ask(asked) => keep_guide(guides, asked.guide),
        Command::Verify(_) => true,
        Command::Forced(_) => true,
        Command::Trial(_) => true,
        Command::Explain(asked) => keep_guide(guides, asked.guide),
        Command::Conflicts(asked) => keep_guide(guides, asked.guide),
        Command::Golden(asked) => keep_guide(guides, asked.guide),
        Command::Possible(asked) => keep_guide(guides, asked.guide),
        Command::CertainTable(asked) => keep_guide(guides, asked.guide),
        Command::PossibleTable(asked) => keep_guide(guides, asked.guide),
        Command::Session(asked) => keep_guide(guides, asked.guide),
    }
}

/// The command that words say, where so many guides are handed in; the guide that it asks for is kept.
pub fn command_kept<'a>(
    alloc: Global,
    words: &'a [String],
    guides: &mut Guides,
) -> Result<Command<'a>, Trouble>
    ensures taken { IfOk result (λ c. command_for (count_of guides.old) (map (λ w. string_bytes w) words.entry.now) ≡
        Some (said_of c)) }
    ensures in_range { IfOk result (λ c. IsInRange (said_of c)) }
    ensures left { IfOk result (λ c. IsLeft (λ guide. (⟦<dyn Guide as Guide>⟧ guide.vtable).choice guide.value)
        guides.old guides.new (guide_of (said_of c))) }
    ensures refused { IfErr result (λ e. e ≡ Trouble.Words → command_for (count_of guides.old)
        (map (λ w. string_bytes w) words.entry.now) ≡ None) }
    ensures causes { IfErr result (λ e. (e ≡ Trouble.Words) ⊎ (e ≡ Trouble.NoMemory)) }
{
    numbers_are_in_range();
    let command = match command_given(alloc, words) {
        Ok(command) => command,
        Err(WordsFault::Refused) => return Err(Trouble::Words),
        Err(WordsFault::NoMemory) => return Err(Trouble::NoMemory),
    };
    if keep_for(guides, &command) {
        Ok(command)
    } else {
        Err(Trouble::Words)
    }
}
