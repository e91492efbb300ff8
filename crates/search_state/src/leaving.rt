//! Clauses that no longer help leave the watch lists: those of which a learned clause is a part. They stay in the arena and the
//! log.

ghost use Rattle.std.specs.Prelude.{◌≡◌, ◌<◌, ◌-◌, ◌∷◌, ℕ, List, All, Contains, Option, Some, true, length, slice_get};
ghost use Rattle.currency_base.specs.declared.lit.Lit.{Lit};
ghost use Rattle.clause_arena.specs.Arenas.{IsWatched};
ghost use Rattle.search_trail.specs.Trails.{Trail};
ghost use Rattle.search_state.specs.Held.{AreHeld};

use clause_arena::{Arena, ClauseNo};
use currency_base::Lit;

/// Takes those of the hints off the watch lists of which the last clause is a part, if it has two literals: what is at rest on
/// it is at rest on them.
pub(crate) fn drop_supersets(arena: &mut Arena, hints: &[u32])
    requires { (lits : List Lit) (first second : Lit) (rest : List Lit)
        → slice_get arena.old.clauses (length arena.old.clauses - 1) ≡ Some lits → lits ≡ first ∷ second ∷ rest
        → IsWatched arena.old (length arena.old.clauses - 1) }
    ensures held { (clauses : List (List Lit)) (t : Trail) (refuted : Option ℕ) → AreHeld clauses arena.old t refuted
        → AreHeld clauses arena.new t refuted }
    ensures clauses { arena.new.clauses ≡ arena.old.clauses }
    ensures watchers { length arena.new.watchers ≡ length arena.old.watchers }
{
    let count = arena.count();
    if count == 0 || arena.lits(ClauseNo(count - 1)).len() <= 1 {
        return;
    }
    for hint in hints {
        drop_superset(arena, ClauseNo(count - 1), *hint);
    }
}

// Takes a clause off the watch lists, where another one that is watched is a part of it.
fn drop_superset(arena: &mut Arena, part: ClauseNo, clause: u32)
    requires { IsWatched arena.old part.0 }
    ensures held { (clauses : List (List Lit)) (t : Trail) (refuted : Option ℕ) → AreHeld clauses arena.old t refuted
        → AreHeld clauses arena.new t refuted }
    ensures watched { IsWatched arena.new part.0 }
    ensures clauses { arena.new.clauses ≡ arena.old.clauses }
    ensures watchers { length arena.new.watchers ≡ length arena.old.watchers }
{
    if clause >= arena.count() || clause == part.0 {
        return;
    }
    let lits = arena.lits(ClauseNo(clause));
    if lits.len() > 1 && is_part(arena.lits(part), lits) {
        arena.leave(ClauseNo(clause));
    }
}

// Are all literals of a clause among those of another?
fn is_part(lits: &[Lit], of: &[Lit]) -> bool
    ensures { result ≡ true → (lit : Lit) → Contains lits.now lit → Contains of.now lit }
{
    for lit in lits {
        if !is_in(of, *lit) {
            return false;
        }
    }
    true
}

// Is a literal among these?
fn is_in(lits: &[Lit], lit: Lit) -> bool
    ensures { result ≡ true → Contains lits.now lit }
{
    lits.contains(&lit)
}
