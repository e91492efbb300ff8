ghost use Rattle.std.specs.Prelude.{◌≡◌, ◌≤◌, ◌<◌, ◌+◌, All, Contains, [], Some, OnOk, ℕ, length};
ghost use Rattle.watch_propagate.specs.WatchRule.{AreReasons};
ghost use Rattle.conflict_analysis.specs.Steps.{AreMet, AreReasoned, Closes, ClosesAll, Completes};
ghost use Rattle.conflict_analysis.specs.Steps.{IsReasoned, MeetsReason, Minimizes, Passes, PopsKept, State, Walks};

use crate::clauses::meet_all;
use crate::reasons::reason_at;
use crate::resolution::{Bounds, Resolution};
use clause_arena::Arena;
use currency_base::NoMemory;
use search_trail::Trail;

/// Meets the literals of the clause that implied the one at a place.
pub(crate) fn meet_reason(
    found: &mut Resolution,
    arena: &Arena,
    trail: &Trail,
    bounds: Bounds,
    place: u32,
) -> Result<(), NoMemory>
    requires long { length trail.now.entries ≤ length found.old.seen }
    requires reasons { AreReasons arena.now trail.now.entries }
    requires there { place < length trail.now.entries }
    requires reasoned { IsReasoned trail.now.entries place }
    ensures long { length found.new.seen ≡ length found.old.seen }
    ensures ok { OnOk result (MeetsReason arena.now trail.now.entries bounds.base bounds.level place found.old found.new) }
{
    let Some(clause) = reason_at(trail, place) else {
        unreachable!();
    };
    meet_all(found, trail, bounds, arena.lits(clause))
}

// Resolves the literal at a place of the current level, if it was met.
fn pass(
    found: &mut Resolution,
    arena: &Arena,
    trail: &Trail,
    bounds: Bounds,
    place: u32,
) -> Result<(), NoMemory>
    requires long { length trail.now.entries ≤ length found.old.seen }
    requires reasons { AreReasons arena.now trail.now.entries }
    requires there { place < length trail.now.entries }
    requires reasoned { IsReasoned trail.now.entries place }
    requires order { bounds.base ≤ bounds.level }
    requires top { bounds.level ≤ place }
    ensures long { length found.new.seen ≡ length found.old.seen }
    ensures ok { OnOk result (Passes arena.now trail.now.entries bounds.base bounds.level place found.old found.new) }
{
    trail.are_entries();
    if !found.is_met(place) {
        return Ok(());
    }
    meet_reason(found, arena, trail, bounds, place)?;
    found.resolve(place)
}

/// Resolves the literals of the current level that were met, the last one first, until one is left: the first unique
/// implication point.
pub(crate) fn walk(
    found: &mut Resolution,
    arena: &Arena,
    trail: &Trail,
    bounds: Bounds,
) -> Result<(), NoMemory>
    requires long { length trail.now.entries ≤ length found.old.seen }
    requires reasons { AreReasons arena.now trail.now.entries }
    requires reasoned { AreReasoned trail.now.entries bounds.level }
    requires order { bounds.base ≤ bounds.level }
    requires low { found.old.low < length trail.now.entries }
    requires few { length trail.now.entries ≤ 2147483648 }
    requires met { AreMet arena.now trail.now.entries bounds.base bounds.level (length trail.now.entries) found.old }
    ensures long { length found.new.seen ≡ length found.old.seen }
    ensures ok { OnOk result (Walks arena.now trail.now.entries bounds.base bounds.level found.old found.new) }
{
    let mut at = trail.assigned().len() as u32;
    while at > found.low() + 1 {
        at -= 1;
        pass(found, arena, trail, bounds, at)?;
    }
    Ok(())
}

// Resolves the literal at a place that was kept, where the others imply it; else its negation goes into the clause.
fn minimize_at(
    found: &mut Resolution,
    arena: &Arena,
    trail: &Trail,
    bounds: Bounds,
    place: u32,
) -> Result<(), NoMemory>
    requires long { length trail.now.entries ≤ length found.old.seen }
    requires reasons { AreReasons arena.now trail.now.entries }
    requires there { place < length trail.now.entries }
    ensures long { length found.new.seen ≡ length found.old.seen }
    ensures kept { OnOk result (found.new.kept ≡ found.old.kept) }
    ensures ok { OnOk result ((before : State) → PopsKept before found.old (Some place)
        → Minimizes arena.now trail.now.entries bounds.base bounds.level before found.new) }
{
    trail.are_entries();
    if found.is_implied(arena, trail, bounds.base, place) {
        found.resolve(place)
    } else {
        found.leave(place)
    }
}

/// Resolves the kept literals that the others imply. The negations of those that are left go into the clause.
pub(crate) fn minimize(
    found: &mut Resolution,
    arena: &Arena,
    trail: &Trail,
    bounds: Bounds,
) -> Result<(), NoMemory>
    requires long { length trail.now.entries ≤ length found.old.seen }
    requires reasons { AreReasons arena.now trail.now.entries }
    requires kept { All (λ place. place < length trail.now.entries) found.old.kept }
    ensures long { length found.new.seen ≡ length found.old.seen }
    ensures kept { OnOk result (found.new.kept ≡ []) }
    ensures ok { OnOk result (Minimizes arena.now trail.now.entries bounds.base bounds.level found.old found.new) }
{
    found.begin_trial(trail);
    while let Some(place) = found.pop_kept() {
        minimize_at(found, arena, trail, bounds, place)?;
    }
    Ok(())
}

// Meets the reason of a place that was resolved, where the walk has not done so. What was not met before is resolved too,
// where it has a reason.
fn close(
    found: &mut Resolution,
    arena: &Arena,
    trail: &Trail,
    bounds: Bounds,
    at: u32,
    place: u32,
) -> Result<(), NoMemory>
    requires long { length trail.now.entries ≤ length found.old.seen }
    requires reasons { AreReasons arena.now trail.now.entries }
    requires order { bounds.base ≤ bounds.level }
    requires above { bounds.level ≤ at }
    requires met { AreMet arena.now trail.now.entries bounds.base bounds.level at found.old }
    requires resolved { Contains found.old.resolved place }
    ensures long { length found.new.seen ≡ length found.old.seen }
    ensures ok { OnOk result (Closes arena.now trail.now.entries bounds.base bounds.level at place found.old found.new) }
{
    if at <= place {
        return Ok(());
    }
    let below = Bounds {
        base: bounds.level,
        level: bounds.level,
    };
    meet_reason(found, arena, trail, below, place)
}

/// Meets the reasons of all places that were resolved, of those that come on the way too.
pub(crate) fn close_all(
    found: &mut Resolution,
    arena: &Arena,
    trail: &Trail,
    bounds: Bounds,
    at: u32,
) -> Result<(), NoMemory>
    requires long { length trail.now.entries ≤ length found.old.seen }
    requires reasons { AreReasons arena.now trail.now.entries }
    requires order { bounds.base ≤ bounds.level }
    requires above { bounds.level ≤ at }
    requires met { AreMet arena.now trail.now.entries bounds.base bounds.level at found.old }
    ensures long { length found.new.seen ≡ length found.old.seen }
    ensures ok { OnOk result (ClosesAll arena.now trail.now.entries bounds.base bounds.level at found.old found.new) }
{
    let mut done = 0;
    while done < found.resolved().len() {
        let place = found.resolved()[done];
        close(found, arena, trail, bounds, at, place)?;
        done += 1;
    }
    Ok(())
}

/// Resolves the kept literals that the others imply, and meets the reasons of all that were resolved.
pub(crate) fn complete(
    found: &mut Resolution,
    arena: &Arena,
    trail: &Trail,
    bounds: Bounds,
    at: u32,
) -> Result<(), NoMemory>
    requires long { length trail.now.entries ≤ length found.old.seen }
    requires reasons { AreReasons arena.now trail.now.entries }
    requires order { bounds.base ≤ bounds.level }
    requires above { bounds.level ≤ at }
    requires inside { at ≤ length trail.now.entries }
    requires met { AreMet arena.now trail.now.entries bounds.base bounds.level at found.old }
    ensures long { length found.new.seen ≡ length found.old.seen }
    ensures ok { OnOk result (Completes arena.now trail.now.entries bounds.base bounds.level at found.old found.new) }
{
    minimize(found, arena, trail, bounds)?;
    close_all(found, arena, trail, bounds, at)?;
    found.sort();
    Ok(())
}
