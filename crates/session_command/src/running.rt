// The entries of a script, one after another.

ghost use Rattle.std.specs.Prelude.{◌≡◌, ◌≤◌, ◌++◌, ◌∷◌, ℕ, List, [], false, not, IfErr, IfOk, IfSome, OnOk};
ghost use Rattle.command_stages.specs.Endings.{ending_of};
ghost use Rattle.command_stages.specs.Named.{IsDeterminedTrouble, IsReadFault, IsReadFaultOf};
ghost use Rattle.currency_edge.specs.Fault.{Rose};
ghost use Rattle.spec_names.specs.Names.{all_names_of};
ghost use Rattle.session_command.specs.Sessions.{IsTableDueIn, session_said};
ghost use Rattle.session_command.specs.Steps.{GoesOn, IsDoneOf, IsOneMore};
ghost use Rattle.session_command.specs.Texts.{end_text, header_text};

use crate::entry::run_entry;
use crate::telling::{Told, add, append};
use answer_texts::ending_of;
use command_stages::{Done, Trouble, bytes_of};
use currency_base::NoMemory;
use currency_edge::Shelf;
use currency_session::Session;
use program_words::Session as Asked;
use script_syntax::Entry;
use solver_guides::Guides;
use spec_names::SpecNames;
use std::alloc::Global;

/// What is printed of all entries over a session.
pub(crate) fn run_session<S: Shelf>(
    alloc: Global,
    shelf: &mut S,
    asked: &Asked<'_>,
    session: &mut Session,
    entries: &[Entry],
    guides: &mut Guides,
) -> Result<Done, Trouble>
    requires budget { asked.now.budget ≤ 10000000 }
    ensures later { S.faults shelf.old ≤ S.faults shelf.new }
    ensures told { IfOk result (λ done. IfSome (S.texts shelf.old) (λ told. IsDoneOf told (session_said asked.now) session.old
        entries.now done)) }
    ensures outside { IfErr result (λ e. IsDeterminedTrouble e → ⊥) }
    ensures read_fault { IsReadFault result → Rose (S.faults shelf.old) (S.faults shelf.new) }
    ensures unread { (n : List ℕ) → IsReadFaultOf result n
        → IfSome (S.texts shelf.old) (λ told. IsTableDueIn told (session_said asked.now) session.old entries.now n) }
{
    match SpecNames::of(alloc, session.spec()) {
        Ok(mut names) => run_named(alloc, shelf, asked, session, &mut names, entries, guides),
        Err(_) => Err(Trouble::NoMemory),
    }
}

/// The same, with the names of the specification.
fn run_named<S: Shelf>(
    alloc: Global,
    shelf: &mut S,
    asked: &Asked<'_>,
    session: &mut Session,
    names: &mut SpecNames,
    entries: &[Entry],
    guides: &mut Guides,
) -> Result<Done, Trouble>
    requires budget { asked.now.budget ≤ 10000000 }
    requires names { names.old ≡ all_names_of session.old.spec }
    ensures later { S.faults shelf.old ≤ S.faults shelf.new }
    ensures told { IfOk result (λ done. IfSome (S.texts shelf.old) (λ told. IsDoneOf told (session_said asked.now) session.old
        entries.now done)) }
    ensures outside { IfErr result (λ e. IsDeterminedTrouble e → ⊥) }
    ensures read_fault { IsReadFault result → Rose (S.faults shelf.old) (S.faults shelf.new) }
    ensures unread { (n : List ℕ) → IsReadFaultOf result n
        → IfSome (S.texts shelf.old) (λ told. IsTableDueIn told (session_said asked.now) session.old entries.now n) }
{
    let mut told = match header(alloc) {
        Ok(told) => told,
        Err(_) => return Err(Trouble::NoMemory),
    };
    match run_entries(
        alloc, shelf, asked, session, names, entries, guides, &mut told,
    ) {
        Ok(()) => finished(told),
        Err(trouble) => Err(trouble),
    }
}

/// Runs all entries, and tells of them after what is told so far.
fn run_entries<S: Shelf>(
    alloc: Global,
    shelf: &mut S,
    asked: &Asked<'_>,
    session: &mut Session,
    names: &mut SpecNames,
    entries: &[Entry],
    guides: &mut Guides,
    into: &mut Told,
) -> Result<(), Trouble>
    requires budget { asked.now.budget ≤ 10000000 }
    requires names { names.old ≡ all_names_of session.old.spec }
    ensures later { S.faults shelf.old ≤ S.faults shelf.new }
    ensures told { OnOk result (IfSome (S.texts shelf.old) (λ told. GoesOn told (session_said asked.now) session.old entries.now
        into.old session.new [] into.new)) }
    ensures outside { IfErr result (λ e. IsDeterminedTrouble e → ⊥) }
    ensures read_fault { IsReadFault result → Rose (S.faults shelf.old) (S.faults shelf.new) }
    ensures unread { (n : List ℕ) → IsReadFaultOf result n
        → IfSome (S.texts shelf.old) (λ told. IsTableDueIn told (session_said asked.now) session.old entries.now n) }
{
    for entry in entries {
        match add_entry(alloc, shelf, asked, session, names, entry, guides, into) {
            Ok(()) => (),
            Err(trouble) => return Err(trouble),
        }
    }
    Ok(())
}

/// Runs one entry, and tells of it after what is told so far.
fn add_entry<S: Shelf>(
    alloc: Global,
    shelf: &mut S,
    asked: &Asked<'_>,
    session: &mut Session,
    names: &mut SpecNames,
    entry: &Entry,
    guides: &mut Guides,
    into: &mut Told,
) -> Result<(), Trouble>
    requires budget { asked.now.budget ≤ 10000000 }
    requires names { names.old ≡ all_names_of session.old.spec }
    ensures kept { S.texts shelf.new ≡ S.texts shelf.old }
    ensures later { S.faults shelf.old ≤ S.faults shelf.new }
    ensures told { OnOk result (IfSome (S.texts shelf.old) (λ told. IsOneMore told (session_said asked.now) session.old entry.now
        session.new into.old into.new)) }
    ensures names { OnOk result (names.new ≡ all_names_of session.new.spec) }
    ensures outside { IfErr result (λ e. IsDeterminedTrouble e → ⊥) }
    ensures read_fault { IsReadFault result → Rose (S.faults shelf.old) (S.faults shelf.new) }
    ensures unread { (n : List ℕ) → IsReadFaultOf result n
        → IfSome (S.texts shelf.old) (λ told. IsTableDueIn told (session_said asked.now) session.old (entry.now ∷ []) n) }
{
    match run_entry(alloc, shelf, asked, session, names, entry, guides) {
        Ok(one) => match add(into, &one) {
            Ok(()) => Ok(()),
            Err(NoMemory) => Err(Trouble::NoMemory),
        },
        Err(trouble) => Err(trouble),
    }
}

/// The first line.
fn header(alloc: Global) -> Result<Told, NoMemory>
    ensures { IfOk result (λ t. t ≡ record { text = header_text; undecided = false }) }
{
    let line = String::from_str(alloc, "currency session 1;\n")?;
    Ok(Told {
        text: bytes_of(line),
        undecided: false,
    })
}

/// What is done once all entries are told of: the last line follows.
fn finished(told: Told) -> Result<Done, Trouble>
    ensures done { IfOk result (λ d. d ≡ record { text = told.text ++ end_text; ending = ending_of (not told.undecided) }) }
    ensures memory { IfErr result (λ e. e ≡ Trouble.NoMemory) }
{
    let Told {
        mut text,
        undecided,
    } = told;
    match append(&mut text, "end;\n".as_bytes()) {
        Ok(()) => Ok(Done {
            text,
            ending: ending_of(!undecided),
        }),
        Err(NoMemory) => Err(Trouble::NoMemory),
    }
}
