// The names of a specification, kept true of it.

ghost use Rattle.std.specs.Prelude.{◌≡◌, IfOk, OnOk, OnErr};
ghost use Rattle.session_entries.specs.Renamed.{IsFresh, change_of, renamed};

use currency_base::{Name, NoMemory};
use spec_edits::Edit;
use spec_model::Specification;
use spec_names::SpecNames;
use std::alloc::Global;

/// What an edit changes of the names of a specification's parts.
#[derive(Drop)]
pub enum NameChange {
    /// Nothing.
    Kept,
    /// A rule of this name is added after the others.
    Added(Name),
    /// A rule is withdrawn.
    Withdrawn,
}

/// What an edit changes of the names; the name of an added rule is copied.
pub fn change_of(alloc: Global, edit: &Edit) -> Result<NameChange, NoMemory>
    ensures { IfOk result (λ change. change ≡ change_of edit.now) }
{
    match edit {
        Edit::AddRule(rule) => Ok(NameChange::Added(rule.name.duplicate(alloc)?)),
        Edit::WithdrawRule(_) => Ok(NameChange::Withdrawn),
        _ => Ok(NameChange::Kept),
    }
}

/// Makes the change, with the specification as it is after the edit. A refusal changes nothing.
pub fn rename(
    alloc: Global,
    names: &mut SpecNames,
    spec: &Specification,
    change: NameChange,
) -> Result<(), NoMemory>
    requires { IsFresh names.old change }
    ensures ok { OnOk result (names.new ≡ renamed names.old spec.now.rules change) }
    ensures err { OnErr result (names.new ≡ names.old) }
{
    match change {
        NameChange::Kept => Ok(()),
        NameChange::Added(name) => names.add_rule(name),
        NameChange::Withdrawn => names.replace_rules(alloc, spec.rules()),
    }
}
