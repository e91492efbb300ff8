// What an entry comes to.

ghost use Rattle.std.specs.Prelude.{◌≡◌, ◌⊎◌, ◌≤◌, ℕ, List, IfErr, IfOk, IfSome, OnOk};
ghost use Rattle.command_stages.specs.Named.{IsDeterminedTrouble, IsReadFault, IsReadFaultOf};
ghost use Rattle.currency_edge.specs.Fault.{Rose};
ghost use Rattle.spec_names.specs.Names.{all_names_of};
ghost use Rattle.session_entries.specs.Entries.{IsEditTree};
ghost use Rattle.session_command.specs.Sessions.{IsTableDueBy, session_said};
ghost use Rattle.session_command.specs.Steps.{step_of};
ghost use Rattle.session_command.specs.Transcripts.{IsAccepted, IsEntryDone, IsRefused};

use crate::done::do_edit;
use crate::question::run_question;
use crate::telling::{Told, accepted_text, fault_line};
use command_stages::Trouble;
use currency_base::NoMemory;
use currency_edge::Shelf;
use currency_session::Session;
use program_words::Session as Asked;
use script_syntax::{Entry, EntryTree};
use solver_guides::Guides;
use spec_names::SpecNames;
use std::alloc::Global;

/// Runs an entry over the session: does the edit, or answers the question about the specification as it is then, and says what is
/// told of it. The names stay those of the specification. A table that cannot be read, and want of memory, end the run.
pub(crate) fn run_entry<S: Shelf>(
    alloc: Global,
    shelf: &mut S,
    asked: &Asked<'_>,
    session: &mut Session,
    names: &mut SpecNames,
    entry: &Entry,
    guides: &mut Guides,
) -> Result<Told, Trouble>
    requires budget { asked.now.budget ≤ 10000000 }
    requires names { names.old ≡ all_names_of session.old.spec }
    ensures kept { S.texts shelf.new ≡ S.texts shelf.old }
    ensures later { S.faults shelf.old ≤ S.faults shelf.new }
    ensures done { IfOk result (λ t. IfSome (S.texts shelf.old) (λ told. IsEntryDone told (session_said asked.now) session.old
        entry.now (step_of t session.new))) }
    ensures names { OnOk result (names.new ≡ all_names_of session.new.spec) }
    ensures outside { IfErr result (λ e. IsDeterminedTrouble e → ⊥) }
    ensures read_fault { IsReadFault result → Rose (S.faults shelf.old) (S.faults shelf.new) }
    ensures unread { (n : List ℕ) → IsReadFaultOf result n
        → IfSome (S.texts shelf.old) (λ told. IsTableDueBy entry.now.tree told session.old.spec.relations n) }
{
    match &entry.tree {
        EntryTree::Ask(tree) => {
            run_question(alloc, shelf, asked, session, entry.line, tree, guides)
        }
        _ => match run_edit(alloc, asked.script, session, names, entry) {
            Ok(told) => Ok(told),
            Err(NoMemory) => Err(Trouble::NoMemory),
        },
    }
}

/// Does an edit, and says what is told of it.
fn run_edit(
    alloc: Global,
    script: &str,
    session: &mut Session,
    names: &mut SpecNames,
    entry: &Entry,
) -> Result<Told, NoMemory>
    requires names { names.old ≡ all_names_of session.old.spec }
    requires edit { IsEditTree entry.now.tree }
    ensures done { IfOk result (λ t. IsAccepted session.old entry.now (step_of t session.new)
        ⊎ IsRefused script.now session.old entry.now (step_of t session.new)) }
    ensures names { OnOk result (names.new ≡ all_names_of session.new.spec) }
{
    match do_edit(alloc, session, names, &entry.tree) {
        Ok(()) => Ok(Told {
            text: accepted_text(alloc, entry.line)?,
            undecided: false,
        }),
        Err(fault) => Ok(Told {
            text: fault_line(alloc, script, entry.line, fault)?,
            undecided: false,
        }),
    }
}
