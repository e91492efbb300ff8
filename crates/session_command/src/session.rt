// All stages of `session`.

ghost use Rattle.std.specs.Prelude.{◌≢◌, ◌≤◌, ℕ, List, Ok, IfErr, IfOk, IfSome};
ghost use Rattle.bound_spec.specs.Growth.{IsWithinLimits};
ghost use Rattle.command_stages.specs.Named.{IsDetermined, IsDeterminedTrouble, IsReadFault, IsReadFaultOf};
ghost use Rattle.command_stages.specs.Stages.{Then};
ghost use Rattle.currency_edge.specs.Fault.{Rose};
ghost use Rattle.session_command.specs.Sessions.{IsScriptDocumentDue, IsScriptRead, IsSessionDocumentDue, IsSessionDue};
ghost use Rattle.session_command.specs.Sessions.{IsSessionPrinted, IsTableDueIn, IsTold, opening, session_said};

use crate::reading::read_entries;
use crate::running::run_session;
use bound_spec::is_specification;
use command_stages::{Done, Trouble, read_specification};
use currency_edge::Shelf;
use currency_session::Session;
use program_words::Session as Asked;
use script_syntax::Entry;
use solver_guides::Guides;
use spec_model::Specification;
use std::alloc::Global;

/// All stages of `session`: the specification is read, then the script, and its entries are run over the specification, one
/// after another. The text is a first line, what each entry comes to, and `end;`; it ends undecided exactly where the search for
/// a reply was cut off. An entry that is refused changes nothing, is told of, and the session goes on.
///
/// `Refused`, `CopyDiffers` and `Limit` come of the specification and the script alone. `ReadFault` comes of a table of a
/// question too, and ends the run. An edit costs what it touches, and a question what `Session::ask` does, and names once more.
pub fn session_documents<S: Shelf>(
    alloc: Global,
    shelf: &mut S,
    asked: Asked<'_>,
    guides: &mut Guides,
) -> Result<Done, Trouble>
    requires budget { asked.budget ≤ 10000000 }
    ensures later { S.faults shelf.old ≤ S.faults shelf.new }
    ensures due { IsDetermined result → IfSome (S.texts shelf.old)
        (λ told. IsSessionDue told (session_said asked.entry) result) }
    ensures printed { IfOk result (λ done. IfSome (S.texts shelf.old)
        (λ told. IsSessionPrinted told (session_said asked.entry) done.text done.ending)) }
    ensures read_fault { IsReadFault result → Rose (S.faults shelf.old) (S.faults shelf.new) }
    ensures unread { (n : List ℕ) → IsReadFaultOf result n
        → IfSome (S.texts shelf.old) (λ told. IsSessionDocumentDue told (session_said asked.entry) n) }
    ensures not_words { IfErr result (λ e. e ≢ Trouble.Words) }
{
    match read_specification(alloc, shelf, asked.spec) {
        Ok(spec) => run_over(alloc, shelf, &asked, spec, guides),
        Err(trouble) => Err(trouble),
    }
}

/// The script is read, and run over a specification.
fn run_over<S: Shelf>(
    alloc: Global,
    shelf: &mut S,
    asked: &Asked<'_>,
    spec: Specification,
    guides: &mut Guides,
) -> Result<Done, Trouble>
    requires budget { asked.now.budget ≤ 10000000 }
    requires within { IsWithinLimits spec }
    ensures later { S.faults shelf.old ≤ S.faults shelf.new }
    ensures due { IsDetermined result → IfSome (S.texts shelf.old) (λ told.
        Then (IsScriptRead told (session_said asked.now).script) (IsTold told (session_said asked.now) spec) result) }
    ensures read_fault { IsReadFault result → Rose (S.faults shelf.old) (S.faults shelf.new) }
    ensures unread { (n : List ℕ) → IsReadFaultOf result n
        → IfSome (S.texts shelf.old) (λ told. IsScriptDocumentDue told (session_said asked.now) spec n) }
    ensures not_words { IfErr result (λ e. e ≢ Trouble.Words) }
{
    match read_entries(alloc, shelf, asked.script) {
        Ok(entries) => run_script(alloc, shelf, asked, spec, entries.as_slice(), guides),
        Err(trouble) => Err(trouble),
    }
}

/// The entries of a script are run over a specification.
fn run_script<S: Shelf>(
    alloc: Global,
    shelf: &mut S,
    asked: &Asked<'_>,
    spec: Specification,
    entries: &[Entry],
    guides: &mut Guides,
) -> Result<Done, Trouble>
    requires budget { asked.now.budget ≤ 10000000 }
    requires within { IsWithinLimits spec }
    ensures later { S.faults shelf.old ≤ S.faults shelf.new }
    ensures told { IfOk result (λ done. IfSome (S.texts shelf.old)
        (λ told. IsTold told (session_said asked.now) spec entries.now (Ok done))) }
    ensures outside { IfErr result (λ e. IsDeterminedTrouble e → ⊥) }
    ensures read_fault { IsReadFault result → Rose (S.faults shelf.old) (S.faults shelf.new) }
    ensures unread { (n : List ℕ) → IsReadFaultOf result n
        → IfSome (S.texts shelf.old) (λ told. IsTableDueIn told (session_said asked.now) (opening spec) entries.now n) }
{
    is_specification(&spec);
    match Session::new(alloc, spec) {
        Ok(mut session) => run_session(alloc, shelf, asked, &mut session, entries, guides),
        Err(_) => Err(Trouble::NoMemory),
    }
}
