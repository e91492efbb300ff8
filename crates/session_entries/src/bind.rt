ghost use Rattle.std.specs.Prelude.{◌≡◌, IfOk};
ghost use Rattle.spec_edits.specs.Edits.{IsEditOf};
ghost use Rattle.spec_names.specs.Names.{all_names_of};
ghost use Rattle.session_entries.specs.Entries.{IsEditTree, IsEntryDue, IsEntryReadFault, bound, edit_named, rule_named};

use crate::EntryFault;
use crate::copied::bind_copied;
use crate::given::bind_given;
use crate::withdrawn::bind_withdrawn;
use bind_faults::BindFault;
use rule_bind::bind_rule;
use rule_syntax::RuleTree;
use script_syntax::EntryTree;
use spec_edits::Edit;
use spec_model::Specification;
use spec_names::SpecNames;
use std::alloc::Global;

/// The edit that an entry says of a specification whose parts have these names, or its first fault: an unknown relation,
/// attribute or copy function; of a rule what `bind_rule` refuses; an unknown row, the first before the second; and then a pair
/// that is not of two rows of one entity, added or withdrawn. Of a rule that is to be withdrawn, that none has the name. What the
/// edit speaks of is there.
pub fn bind_edit(
    alloc: Global,
    names: &SpecNames,
    spec: &Specification,
    tree: &EntryTree,
) -> Result<Edit, EntryFault>
    requires names { names.now ≡ all_names_of spec.now }
    requires edit { IsEditTree tree.now }
    ensures due { IsEntryDue (edit_named spec.now tree.now) result }
    ensures there { IfOk result (IsEditOf spec.now) }
    ensures reads { IsEntryReadFault result → ⊥ }
{
    match tree {
        EntryTree::Order {
            add,
            relation,
            attr,
            pair,
        } => bound(bind_given(names, spec, *add, relation, attr, pair)),
        EntryTree::AddRule(rule) => bind_added(alloc, names, spec, rule),
        EntryTree::WithdrawRule(name) => bind_withdrawn(names, spec, name),
        EntryTree::Copy { add, name, mapping } => {
            bound(bind_copied(names, spec, *add, name, mapping))
        }
        EntryTree::Ask(_) => unreachable!(),
    }
}

/// An edit that is bound, or the fault of binding it.
fn bound(edit: Result<Edit, BindFault>) -> Result<Edit, EntryFault>
    ensures { result ≡ bound edit }
{
    match edit {
        Ok(edit) => Ok(edit),
        Err(fault) => Err(EntryFault::Bind(fault)),
    }
}

/// The edit by which a rule is added.
fn bind_added(
    alloc: Global,
    names: &SpecNames,
    spec: &Specification,
    rule: &RuleTree,
) -> Result<Edit, EntryFault>
    requires { names.now ≡ all_names_of spec.now }
    ensures due { IsEntryDue (bound (rule_named spec.now rule.now)) result }
    ensures there { IfOk result (IsEditOf spec.now) }
    ensures reads { IsEntryReadFault result → ⊥ }
{
    match bind_rule(alloc, names, spec, rule) {
        Ok(rule) => Ok(Edit::AddRule(rule)),
        Err(fault) => Err(EntryFault::Bind(fault)),
    }
}
