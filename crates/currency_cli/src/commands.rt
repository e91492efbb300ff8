ghost use Rattle.std.specs.Prelude.{◌≡◌, ◌≢◌, ◌⊎◌, ℕ, List, IfErr, None, Some, Err, ◌≤◌, IfOk, IfSome, map, string_bytes};
ghost use Rattle.currency_edge.specs.Fault.{Rose};
ghost use Rattle.program_words.specs.Said.{said_of};
ghost use Rattle.program_words.specs.Words.{TrialOf};
ghost use Rattle.trial_command.specs.Trial.{IsTrialDue};
ghost use Rattle.solver_guides.specs.Rings.{count_of};
ghost use Rattle.currency_cli.specs.Printed.{IsPrinted, IsPrintedFor};
ghost use Rattle.currency_cli.specs.Due.{IsDueFor, IsDue, IsDocumentDue, IsReadDue};
ghost use Rattle.currency_cli.specs.Words.{IsInRange, command_for};
ghost use Rattle.command_stages.specs.Named.{IsDetermined, IsReadFault, IsReadFaultOf};

use crate::words::command_kept;
use ask_command::ask_documents;
use certain_table::certain_documents;
use command_stages::{Done, Trouble};
use conflicts_command::conflicts_document;
use currency_edge::Shelf;
use explain_command::explain_documents;
use forced_command::forced_document;
use golden_command::golden_document;
use possible_command::possible_documents;
use possible_table::possible_table_documents;
use program_words::Command;
use session_command::session_documents;
use solver_guides::Guides;
use std::alloc::Global;
use trial_command::try_generated;
use verify_command::verified;

// What is due for a command, unless the outside fails or memory runs out.
fn outcome_of<S: Shelf>(
    alloc: Global,
    command: Command<'_>,
    shelf: &mut S,
    guides: &mut Guides,
) -> Result<Done, Trouble>
    requires { IsInRange (said_of command) }
    ensures later { S.faults shelf.old ≤ S.faults shelf.new }
    ensures due { IsDetermined result → IfSome (S.texts shelf.old) (λ told. IsDueFor told (said_of command.entry) result) }
    ensures printed { IfOk result (λ done. IfSome (S.texts shelf.old) (λ told. IsPrinted told (said_of command.entry) done)) }
    ensures read_fault { IsReadFault result → Rose (S.faults shelf.old) (S.faults shelf.new) }
    ensures unread { (n : List ℕ) → IsReadFaultOf result n
        → IfSome (S.texts shelf.old) (λ told. IsDocumentDue told (said_of command.entry) n) }
    ensures not_words { IfErr result (λ e. e ≢ Trouble.Words) }
    ensures generated { (size : ℕ) → said_of command.entry ≡ TrialOf size → IsDetermined result → IsTrialDue size result }
    ensures unshelved { (size : ℕ) → said_of command.entry ≡ TrialOf size → IsReadFault result → ⊥ }
{
    match command {
        Command::Verify(asked) => verified(alloc, shelf, asked),
        Command::Ask(asked) => ask_documents(alloc, shelf, asked, guides),
        Command::Forced(name) => forced_document(alloc, shelf, name),
        Command::Trial(size) => try_generated(alloc, size, guides),
        Command::Explain(asked) => explain_documents(alloc, shelf, asked, guides),
        Command::Conflicts(asked) => conflicts_document(alloc, shelf, asked, guides),
        Command::Golden(asked) => golden_document(alloc, shelf, asked, guides),
        Command::Possible(asked) => possible_documents(alloc, shelf, asked, guides),
        Command::CertainTable(asked) => certain_documents(alloc, shelf, asked, guides),
        Command::PossibleTable(asked) => possible_table_documents(alloc, shelf, asked, guides),
        Command::Session(asked) => session_documents(alloc, shelf, asked, guides),
    }
}

/// What is due for the words, where so many guides are handed in, unless the outside fails or memory runs out: what the
/// command came to, else the first trouble.
pub fn outcome<S: Shelf>(
    alloc: Global,
    words: &[String],
    shelf: &mut S,
    guides: &mut Guides,
) -> Result<Done, Trouble>
    ensures later { S.faults shelf.old ≤ S.faults shelf.new }
    ensures due { IsDetermined result → IfSome (S.texts shelf.old) (λ told. IsDue told (count_of guides.old)
        (map (λ w. string_bytes w) words.now) result) }
    ensures printed { IfOk result (λ done. IsPrintedFor (S.texts shelf.old) (count_of guides.old)
        (map (λ w. string_bytes w) words.now) done) }
    ensures read_fault { IsReadFault result → Rose (S.faults shelf.old) (S.faults shelf.new) }
    ensures unread { (n : List ℕ) → IsReadFaultOf result n
        → IfSome (S.texts shelf.old) (λ told. IsReadDue told (count_of guides.old) (map (λ w. string_bytes w) words.now) n) }
    ensures words { result ≡ Err Trouble.Words → command_for (count_of guides.old) (map (λ w. string_bytes w) words.now) ≡ None }
    ensures words_refused { command_for (count_of guides.old) (map (λ w. string_bytes w) words.now) ≡ None
        → (result ≡ Err Trouble.Words) ⊎ (result ≡ Err Trouble.NoMemory) }
    ensures generated { (size : ℕ) → command_for (count_of guides.old) (map (λ w. string_bytes w) words.now) ≡ Some (TrialOf size)
        → IsDetermined result → IsTrialDue size result }
    ensures unshelved { (size : ℕ) → command_for (count_of guides.old) (map (λ w. string_bytes w) words.now) ≡ Some (TrialOf size)
        → IsReadFault result → ⊥ }
{
    match command_kept(alloc, words, guides) {
        Ok(command) => outcome_of(alloc, command, shelf, guides),
        Err(trouble) => Err(trouble),
    }
}
