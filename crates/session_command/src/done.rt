// Edits of a session.

ghost use Rattle.std.specs.Prelude.{◌≡◌};
ghost use Rattle.spec_edits.specs.Edits as edits;
ghost use Rattle.spec_edits.specs.Edits.{IsEditOf};
ghost use Rattle.spec_names.specs.Names.{all_names_of};
ghost use Rattle.session_entries.specs.Entries.{EntryDone, IsEditTree, KeepsNames, edited_by, entry_due};

use bind_faults::BindFault;
use currency_base::NoMemory;
use currency_session::Session;
use script_syntax::EntryTree;
use session_entries::{EntryFault, bind_edit, change_of, fault_of_edit, rename};
use spec_edits::Edit;
use spec_names::SpecNames;
use std::alloc::Global;

/// Does an entry: binds it by the names of the specification, edits the specification, and keeps the names those of its parts.
/// What `bind_edit` refuses comes first, then a row that is copied already or differs from its source row, or what is to be
/// withdrawn and is not there, and then limit 8 or 11. A refusal changes nothing, and what is kept stays. Once memory ran out no
/// more is said of the specification and its names, which are then of no more use.
pub(crate) fn do_edit(
    alloc: Global,
    session: &mut Session,
    names: &mut SpecNames,
    tree: &EntryTree,
) -> Result<(), EntryFault>
    requires names { names.old ≡ all_names_of session.old.spec }
    requires edit { IsEditTree tree.now }
    ensures done { EntryDone session.old.spec session.new.spec (entry_due session.old.spec tree.now) result }
    ensures names { KeepsNames names.new session.new.spec result }
    ensures kept { session.new.kept ≡ session.old.kept }
    ensures reused { session.new.reused ≡ session.old.reused }
{
    match bind_edit(alloc, names, session.spec(), tree) {
        Ok(edit) => do_bound(alloc, session, names, tree, edit),
        Err(fault) => Err(fault),
    }
}

/// Does the edit of an entry.
fn do_bound(
    alloc: Global,
    session: &mut Session,
    names: &mut SpecNames,
    tree: &EntryTree,
    edit: Edit,
) -> Result<(), EntryFault>
    requires names { names.old ≡ all_names_of session.old.spec }
    requires there { IsEditOf session.old.spec edit }
    ensures done { EntryDone session.old.spec session.new.spec (edited_by tree.now (edits.edited session.old.spec edit)) result }
    ensures names { KeepsNames names.new session.new.spec result }
    ensures kept { session.new.kept ≡ session.old.kept }
    ensures reused { session.new.reused ≡ session.old.reused }
{
    let Ok(change) = change_of(alloc, &edit) else {
        return Err(EntryFault::Bind(BindFault::NoMemory));
    };
    match session.edit(alloc, edit) {
        Ok(()) => match rename(alloc, names, session.spec(), change) {
            Ok(()) => Ok(()),
            Err(NoMemory) => Err(EntryFault::Bind(BindFault::NoMemory)),
        },
        Err(fault) => Err(fault_of_edit(tree, fault)),
    }
}
