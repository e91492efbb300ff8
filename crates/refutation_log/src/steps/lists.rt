ghost use Rattle.std.specs.Prelude.{◌≡◌, ◌+◌, ◌<◌, ◌≤◌, ◌∷◌, ◌++◌, [], Some, length, slice_get, IfOk, OnOk};
ghost use Rattle.refutation_log.specs.Steps.{step_of};
ghost use Rattle.refutation_log.specs.Kept.{list_at, step_at, step_of_parts, HaveLists, SameBefore, AreKept};

use super::heads::{Head, Parts};
use crate::StepRef;
use currency_base::{EntId, Lit, NoMemory, RowId, Tuple, Value};
use flat_lists::FlatLists;
use std::alloc::Global;

/// The lists of steps: of each kind one list per step.
#[derive(Drop)]
pub(crate) struct Lists {
    pub(crate) rows: FlatLists<RowId>,
    pub(crate) entities: FlatLists<EntId>,
    pub(crate) values: FlatLists<Value>,
    pub(crate) lits: FlatLists<Lit>,
    pub(crate) hints: FlatLists<u32>,
}

impl Lists {
    /// The lists of no step.
    pub(crate) fn new(alloc: Global) -> Lists {
        Lists {
            rows: FlatLists::new(alloc),
            entities: FlatLists::new(alloc),
            values: FlatLists::new(alloc),
            lits: FlatLists::new(alloc),
            hints: FlatLists::new(alloc),
        }
    }

    /// The step with this head and the lists at a place.
    pub(crate) fn step(&self, head: Head, place: usize) -> StepRef<'_>
        requires { HaveLists (place + 1) self.now }
        ensures { step_of result ≡ step_at head self.now place }
    {
        let parts = Parts {
            head,
            rows: self.rows.get(place),
            entities: self.entities.get(place),
            values: self.values.get(place),
            lits: self.lits.get(place),
            hints: self.hints.get(place),
        };
        parts.step()
    }

    /// Puts the lists of a step at a place. Lists from that place on, which a refused step left, go first.
    pub(crate) fn put(
        &mut self,
        place: usize,
        parts: &Parts<'_>,
        values: Tuple,
    ) -> Result<(), NoMemory>
        requires have { HaveLists place self.old }
        requires values { values ≡ parts.now.values.now }
        ensures have { HaveLists place self.new }
        ensures kept { AreKept place self.new self.old }
        ensures ok { OnOk result (step_at parts.now.head self.new place ≡ step_of_parts parts.now) }
        ensures more { OnOk result (HaveLists (place + 1) self.new) }
    {
        put(&mut self.rows, place, parts.rows)?;
        put(&mut self.entities, place, parts.entities)?;
        put_list(&mut self.values, place, values)?;
        put(&mut self.lits, place, parts.lits)?;
        put(&mut self.hints, place, parts.hints)
    }
}

// Puts a list at a place, after those before it.
fn put<T: Copy + Drop>(lists: &mut FlatLists<T>, place: usize, list: &[T]) -> Result<(), NoMemory>
    requires { place ≤ length lists.old }
    ensures kept { SameBefore place lists.new lists.old }
    ensures length { place ≤ length lists.new }
    ensures list { OnOk result (list_at lists.new place ≡ list.now) }
    ensures more { OnOk result (place + 1 ≤ length lists.new) }
{
    lists.truncate(place);
    lists.push(list)
}

// Puts values at a place, after those before it.
fn put_list(lists: &mut FlatLists<Value>, place: usize, list: Tuple) -> Result<(), NoMemory>
    requires { place ≤ length lists.old }
    ensures kept { SameBefore place lists.new lists.old }
    ensures length { place ≤ length lists.new }
    ensures list { OnOk result (list_at lists.new place ≡ list) }
    ensures more { OnOk result (place + 1 ≤ length lists.new) }
{
    lists.truncate(place);
    lists.push_list(list)
}

/// Equal values.
pub(crate) fn duplicates(alloc: Global, values: &[Value]) -> Result<Tuple, NoMemory>
    ensures { IfOk result (λ copy. copy ≡ values.now) }
{
    let mut copy = Tuple::new(alloc);
    for value in values {
        copy.push(value.duplicate(alloc)?)?;
    }
    Ok(copy)
}
