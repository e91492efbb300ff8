ghost use Rattle.std.specs.Prelude.{◌≡◌, ◌≤◌, ◌++◌, ◌∷◌, [], List, length, All, OnOk};
ghost use Rattle.currency_base.specs.declared.lit.Lit.{Lit};
ghost use Rattle.conflict_analysis.specs.Steps.{IsAssigned, MeetsAll, State};

use crate::reasons::place_of;
use crate::resolution::{Bounds, Resolution};
use currency_base::{Lit, NoMemory};
use search_trail::Trail;

// Meets the place of a literal.
fn meet_lit(found: &mut Resolution, trail: &Trail, bounds: Bounds, lit: Lit) -> Result<(), NoMemory>
    requires long { length trail.now.entries ≤ length found.old.seen }
    requires assigned { IsAssigned trail.now lit }
    ensures long { length found.new.seen ≡ length found.old.seen }
    ensures ok { OnOk result ((front : List Lit) (old : State) → MeetsAll trail.now.entries bounds.base bounds.level
        front old found.old
        → MeetsAll trail.now.entries bounds.base bounds.level (front ++ lit ∷ []) old found.new) }
{
    trail.are_entries();
    let place = place_of(trail, lit);
    found.meet(trail, bounds, place)
}

/// Meets the places of a clause's literals.
pub(crate) fn meet_all(
    found: &mut Resolution,
    trail: &Trail,
    bounds: Bounds,
    lits: &[Lit],
) -> Result<(), NoMemory>
    requires long { length trail.now.entries ≤ length found.old.seen }
    requires assigned { All (IsAssigned trail.now) lits.now }
    ensures long { length found.new.seen ≡ length found.old.seen }
    ensures ok { OnOk result (MeetsAll trail.now.entries bounds.base bounds.level lits.now found.old found.new) }
{
    for lit in lits {
        meet_lit(found, trail, bounds, *lit)?;
    }
    Ok(())
}
