ghost use Rattle.std.specs.Prelude.{◌≡◌, ◌<◌, ◌∷◌, [], Contains, length, IfOk, OnOk};
ghost use Rattle.search_trail.specs.Trails.{lits_of};
ghost use Rattle.watch_propagate.specs.WatchRule.{AreReasons};
ghost use Rattle.conflict_analysis.specs.Analyses.{AreOfAssumed, IsDerived, IsFalsified, IsLearned, IsOfLevel};

use crate::conflicts::{explain, explain_place, lead};
use crate::reasons::{place_of, reason_at};
use crate::resolution::{Bounds, Resolution};
use crate::writing::{push_lit, spell_all, write_hints, write_learned};
use clause_arena::{Arena, ClauseNo};
use currency_base::{Lit, NoMemory};
use search_trail::Trail;

/// Learns a clause from a conflict: writes its literals and its hints, and tells the level to which it leads back.
pub(crate) fn learn_clause(
    found: &mut Resolution,
    lits: &mut Vec<Lit>,
    hints: &mut Vec<u32>,
    arena: &Arena,
    trail: &Trail,
    conflict: ClauseNo,
) -> Result<u32, NoMemory>
    requires long { trail.now.vars ≡ length found.old.seen }
    requires reasons { AreReasons arena.now trail.now.entries }
    requires deep { 0 < length trail.now.starts }
    requires conflict { IsFalsified arena.now trail.now conflict.0 }
    requires level { IsOfLevel arena.now trail.now conflict.0 }
    ensures long { length found.new.seen ≡ length found.old.seen }
    ensures ok { IfOk result (λ back. IsLearned arena.now trail.now (record {
      vars = length found.new.seen;
      lits = lits.new.items;
      hints = hints.new.items;
      back = back;
      resolved = found.new.resolved;
    })) }
{
    trail.are_entries();
    let bounds = Bounds {
        base: trail.start(1),
        level: trail.start(trail.depth()),
    };
    lead(found, arena, trail, bounds, conflict)?;
    write_hints(hints, trail, found.resolved(), conflict)?;
    write_learned(lits, trail, found.low(), found.leaves())
}

/// Derives a clause of negations of assumed literals from a conflict: writes its literals and its hints.
pub(crate) fn explain_clause(
    found: &mut Resolution,
    lits: &mut Vec<Lit>,
    hints: &mut Vec<u32>,
    arena: &Arena,
    trail: &Trail,
    conflict: ClauseNo,
) -> Result<(), NoMemory>
    requires long { trail.now.vars ≡ length found.old.seen }
    requires reasons { AreReasons arena.now trail.now.entries }
    requires conflict { IsFalsified arena.now trail.now conflict.0 }
    ensures long { length found.new.seen ≡ length found.old.seen }
    ensures derived { OnOk result (IsDerived arena.now trail.now lits.new.items hints.new.items) }
    ensures assumed { OnOk result (AreOfAssumed trail.now lits.new.items) }
{
    trail.are_entries();
    let end = trail.assigned().len() as u32;
    let bounds = Bounds {
        base: end,
        level: end,
    };
    explain(found, arena, trail, bounds, conflict)?;
    write_hints(hints, trail, found.resolved(), conflict)?;
    lits.clear();
    spell_all(lits, trail, found.leaves(), end)
}

/// Derives the clause of one literal that is true while nothing is assumed: writes it and its hints.
pub(crate) fn explain_unit(
    found: &mut Resolution,
    lits: &mut Vec<Lit>,
    hints: &mut Vec<u32>,
    arena: &Arena,
    trail: &Trail,
    lit: Lit,
) -> Result<(), NoMemory>
    requires long { trail.now.vars ≡ length found.old.seen }
    requires reasons { AreReasons arena.now trail.now.entries }
    requires bottom { trail.now.starts ≡ [] }
    requires holds { Contains (lits_of trail.now) lit }
    ensures long { length found.new.seen ≡ length found.old.seen }
    ensures derived { OnOk result (IsDerived arena.now trail.now lits.new.items hints.new.items) }
    ensures unit { OnOk result (lits.new.items ≡ lit ∷ []) }
{
    trail.are_entries();
    let place = place_of(trail, lit);
    let Some(clause) = reason_at(trail, place) else {
        unreachable!();
    };
    explain_place(found, arena, trail, place)?;
    write_hints(hints, trail, found.resolved(), clause)?;
    lits.clear();
    push_lit(lits, lit)
}
