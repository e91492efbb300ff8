ghost use Rattle.std.specs.Prelude.{◌≡◌};
ghost use Rattle.session_entries.specs.Entries.{fault_of_edit, row_line};

use bind_faults::{BindFault, Refusal};
use currency_base::{ErrorCode, NoMemory};
use script_syntax::EntryTree;
use spec_edits::EditFault;

/// Why an entry of a script is not done.
#[derive(Debug, Drop)]
pub enum EntryFault {
    /// What an entry is refused for as a statement of a specification would be: a refusal has the line in the script of the name
    /// at fault, and no document; a limit is 8 or 11. Or memory ran out.
    Bind(BindFault),
    /// What is to be withdrawn is not there: the pair, the rule, or the copied row with that source.
    NotThere,
}

impl From<BindFault> for EntryFault {
    ghost use Rattle.std.specs.Prelude.{◌≡◌};
    ghost use Rattle.session_entries.specs.declared.fault.EntryFault.TheVariants as fault;

    ghost from_gives = { λ e f. f ≡ fault.Bind e };

    fn from(fault: BindFault) -> EntryFault {
        EntryFault::Bind(fault)
    }
}

impl From<NoMemory> for EntryFault {
    ghost use Rattle.std.specs.Prelude.{◌≡◌};
    ghost use Rattle.bind_faults.specs.declared.fault.BindFault.TheVariants as bind_fault;
    ghost use Rattle.session_entries.specs.declared.fault.EntryFault.TheVariants as fault;

    ghost from_gives = { λ _ f. f ≡ fault.Bind bind_fault.NoMemory };

    fn from(_: NoMemory) -> EntryFault {
        EntryFault::Bind(BindFault::NoMemory)
    }
}

/// The fault of an entry whose edit is refused.
pub fn fault_of_edit(tree: &EntryTree, fault: EditFault) -> EntryFault
    ensures { result ≡ fault_of_edit tree.now fault }
{
    let line = row_line(tree);
    match fault {
        EditFault::NotOneEntity => refused_at(ErrorCode::NotOneEntity, line),
        EditFault::CopyTwice => refused_at(ErrorCode::CopyTwice, line),
        EditFault::CopyDiffers { target, source, .. } => EntryFault::Bind(BindFault::CopyDiffers {
            document: None,
            line,
            target,
            source,
        }),
        EditFault::NotThere => EntryFault::NotThere,
        EditFault::Limit(limit) => EntryFault::Bind(BindFault::Limit(limit)),
        EditFault::NoMemory => EntryFault::Bind(BindFault::NoMemory),
    }
}

/// The line of the first row that an entry names; entries of rules name none.
fn row_line(tree: &EntryTree) -> u32
    ensures { result ≡ row_line tree.now }
{
    match tree {
        EntryTree::Order { pair, .. } => pair.first.line,
        EntryTree::Copy { mapping, .. } => mapping.first.line,
        _ => 0,
    }
}

/// The refusal with a code at a line of the script.
fn refused_at(code: ErrorCode, line: u32) -> EntryFault
    ensures { result ≡ EntryFault.Bind (BindFault.Refused (record { code = code; document = None; line = line })) }
{
    EntryFault::Bind(BindFault::Refused(Refusal {
        code,
        document: None,
        line,
    }))
}
