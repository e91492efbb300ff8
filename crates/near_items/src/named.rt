//! Which items a derivation names. Nothing hangs on it but how soon an explanation is found.

ghost use Rattle.std.specs.Prelude.{◌≡◌, true, length, replicate, IfOk};

use currency_base::{CopyId, NoMemory, RowId};
use refutation_log::{LabelRef, Log, StepRef};
use spec_items::Item;
use std::alloc::Global;

/// An item as numbers, which are compared one after the other.
type Key = [u32; 5];

/// Marks those of these items that the axioms of a log name.
pub(crate) fn named(alloc: Global, items: &[Item], log: &Log) -> Result<Vec<bool>, NoMemory>
    ensures { IfOk result (λ marks. length marks.items ≡ length items.now) }
{
    let keys = keys_of(alloc, log)?;
    let mut marks = Vec::new(alloc);
    for item in items {
        marks.push(keys.binary_search(&key(*item)).is_ok())?;
    }
    Ok(marks)
}

/// Marks all of these items.
pub(crate) fn all(alloc: Global, items: &[Item]) -> Result<Vec<bool>, NoMemory>
    ensures { IfOk result (λ marks. marks.items ≡ replicate (length items.now) true) }
{
    let marks = vec![in alloc; true; items.len()]?;
    Ok(marks)
}

/// The items that the axioms of a log name, ascending.
fn keys_of(alloc: Global, log: &Log) -> Result<Vec<Key>, NoMemory> {
    let mut keys = Vec::new(alloc);
    for place in 0..log.steps.len() {
        put_step(&mut keys, log.steps.get(place))?;
    }
    keys.sort_unstable();
    Ok(keys)
}

/// Puts in the items of a step, if it is an axiom.
fn put_step(keys: &mut Vec<Key>, step: StepRef<'_>) -> Result<(), NoMemory> {
    match step {
        StepRef::Axiom { label, .. } | StepRef::OnDemand { label, .. } => put_label(keys, label),
        StepRef::Learn { .. } => Ok(()),
    }
}

/// Puts in the items of a label.
fn put_label(keys: &mut Vec<Key>, label: LabelRef<'_>) -> Result<(), NoMemory> {
    match label {
        LabelRef::Given {
            rel,
            attr,
            earlier,
            later,
        } => keys.push([0, rel.0, attr.0, earlier.0, later.0])?,
        LabelRef::Rule { rule, .. } => keys.push([1, rule.0, 0, 0, 0])?,
        LabelRef::Copy {
            copy,
            first,
            second,
            ..
        } => {
            keys.push(copied(copy, first))?;
            keys.push(copied(copy, second))?;
        }
        _ => {}
    }
    Ok(())
}

/// An item as numbers.
fn key(item: Item) -> Key {
    match item {
        Item::Given { rel, pair } => [0, rel.0, pair.attr.0, pair.earlier.0, pair.later.0],
        Item::Rule(rule) => [1, rule.0, 0, 0, 0],
        Item::Copy { copy, target } => copied(copy, target),
    }
}

/// A copied row as numbers.
fn copied(copy: CopyId, target: RowId) -> Key {
    [2, copy.0, target.0, 0, 0]
}
