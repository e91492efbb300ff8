ghost use Rattle.std.specs.Prelude.{◌≡◌, ◌≤◌, ◌<◌, ◌-◌, ℕ, Some, length, slice_get, OnOk};
ghost use Rattle.watch_propagate.specs.WatchRule.{AreReasons};
ghost use Rattle.conflict_analysis.specs.Analyses.{IsFalsified, IsOfLevel};
ghost use Rattle.conflict_analysis.specs.Steps.{IsEndedFor, IsLed, IsReasoned, Starts, reason_of};

use crate::clauses::meet_all;
use crate::resolution::{Bounds, Resolution};
use crate::resolving::{complete, meet_reason, walk};
use clause_arena::{Arena, ClauseNo};
use currency_base::NoMemory;
use search_trail::Trail;

// Meets the literals of a clause, and nothing else.
fn start(
    found: &mut Resolution,
    arena: &Arena,
    trail: &Trail,
    bounds: Bounds,
    conflict: ClauseNo,
) -> Result<(), NoMemory>
    requires long { trail.now.vars ≡ length found.old.seen }
    requires reasons { AreReasons arena.now trail.now.entries }
    requires order { bounds.base ≤ bounds.level }
    requires conflict { IsFalsified arena.now trail.now conflict.0 }
    ensures long { length found.new.seen ≡ length found.old.seen }
    ensures ok { OnOk result (Starts arena.now trail.now.entries bounds.base bounds.level conflict.0 found.new) }
{
    trail.are_entries();
    found.clear();
    meet_all(found, trail, bounds, arena.lits(conflict))
}

/// Resolves the literals of a conflict that are of the current level until one is left, and those of lower levels that
/// the others imply.
pub(crate) fn lead(
    found: &mut Resolution,
    arena: &Arena,
    trail: &Trail,
    bounds: Bounds,
    conflict: ClauseNo,
) -> Result<(), NoMemory>
    requires long { trail.now.vars ≡ length found.old.seen }
    requires reasons { AreReasons arena.now trail.now.entries }
    requires order { bounds.base ≤ bounds.level }
    requires deep { 0 < length trail.now.starts }
    requires begins { slice_get trail.now.starts (length trail.now.starts - 1) ≡ Some bounds.level }
    requires conflict { IsFalsified arena.now trail.now conflict.0 }
    requires level { IsOfLevel arena.now trail.now conflict.0 }
    ensures long { length found.new.seen ≡ length found.old.seen }
    ensures ok { OnOk result (IsLed arena.now trail.now.entries bounds.base bounds.level conflict.0 found.new) }
{
    trail.are_entries();
    start(found, arena, trail, bounds, conflict)?;
    walk(found, arena, trail, bounds)?;
    let at = found.low() + 1;
    complete(found, arena, trail, bounds, at)
}

/// Resolves all literals of a conflict that were implied.
pub(crate) fn explain(
    found: &mut Resolution,
    arena: &Arena,
    trail: &Trail,
    bounds: Bounds,
    conflict: ClauseNo,
) -> Result<(), NoMemory>
    requires long { trail.now.vars ≡ length found.old.seen }
    requires reasons { AreReasons arena.now trail.now.entries }
    requires base { bounds.base ≡ length trail.now.entries }
    requires level { bounds.level ≡ length trail.now.entries }
    requires conflict { IsFalsified arena.now trail.now conflict.0 }
    ensures long { length found.new.seen ≡ length found.old.seen }
    ensures ok { OnOk result (IsEndedFor arena.now trail.now.entries bounds.base bounds.level bounds.level conflict.0 found.new) }
{
    trail.are_entries();
    start(found, arena, trail, bounds, conflict)?;
    complete(found, arena, trail, bounds, bounds.level)
}

/// Resolves all literals of the clause that implied the one at a place, but this one.
pub(crate) fn explain_place(
    found: &mut Resolution,
    arena: &Arena,
    trail: &Trail,
    place: u32,
) -> Result<(), NoMemory>
    requires long { trail.now.vars ≡ length found.old.seen }
    requires reasons { AreReasons arena.now trail.now.entries }
    requires there { place < length trail.now.entries }
    requires reasoned { IsReasoned trail.now.entries place }
    ensures long { length found.new.seen ≡ length found.old.seen }
    ensures ok { OnOk result ((clause : ℕ) → reason_of trail.now.entries place ≡ Some clause
        → IsEndedFor arena.now trail.now.entries place place (length trail.now.entries) clause found.new) }
{
    trail.are_entries();
    let bounds = Bounds {
        base: place,
        level: place,
    };
    found.clear();
    found.meet(trail, bounds, place)?;
    meet_reason(found, arena, trail, bounds, place)?;
    complete(found, arena, trail, bounds, trail.assigned().len() as u32)
}
