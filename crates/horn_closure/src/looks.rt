ghost use Rattle.std.specs.Prelude.{◌≡◌, ◌<◌, ◌^◌, ℕ, true, false, All, Contains, length, OnOk};
ghost use Rattle.horn_closure.specs.Least.{IsAmong};
ghost use Rattle.horn_closure.specs.Steps.{AreClauses, AreUses, IsLookedAt, AreLookedAt, AreUsesLookedAt};

use crate::known::Known;
use crate::uses::Uses;
use crate::{Clauses, Why};
use currency_base::NoMemory;

/// Derives what each clause concludes whose premises were derived.
pub fn look_at_all(known: &mut Known, clauses: &Clauses) -> Result<(), NoMemory>
    requires { AreClauses clauses.now.premises clauses.now.conclusions.items known.old.cells }
    ensures cells { known.new.cells ≡ known.old.cells }
    ensures ok { OnOk result (AreLookedAt clauses.now.premises clauses.now.conclusions.items
        (length clauses.now.premises) known.old.derived known.new.derived) }
{
    for clause in 0..clauses.premises.len() {
        look(known, clauses, clause as u32)?;
    }
    Ok(())
}

/// Derives what each clause concludes that has a cell among its premises, if all of them were derived.
pub fn look_at_uses(
    known: &mut Known,
    clauses: &Clauses,
    uses: &Uses,
    slot: u32,
) -> Result<(), NoMemory>
    requires clauses { AreClauses clauses.now.premises clauses.now.conclusions.items known.old.cells }
    requires uses { AreUses clauses.now.premises uses.now.lasts.items uses.now.uses.items }
    requires within { slot < length uses.now.lasts.items }
    ensures cells { known.new.cells ≡ known.old.cells }
    ensures ok { OnOk result (AreUsesLookedAt clauses.now.premises clauses.now.conclusions.items slot
        known.old.derived known.new.derived) }
{
    let mut at = uses.lasts[slot as usize];
    while at > 0 {
        let one = uses.uses[(at - 1) as usize];
        look(known, clauses, one.clause)?;
        at = one.before;
    }
    Ok(())
}

// Derives what a clause concludes, if its premises were derived.
fn look(known: &mut Known, clauses: &Clauses, clause: u32) -> Result<(), NoMemory>
    requires clauses { AreClauses clauses.now.premises clauses.now.conclusions.items known.old.cells }
    requires there { clause < length clauses.now.premises }
    ensures cells { known.new.cells ≡ known.old.cells }
    ensures ok { OnOk result (IsLookedAt clauses.now.premises clauses.now.conclusions.items clause known.old.derived
        known.new.derived) }
{
    if !are_known(known, clauses.premises.get(clause as usize)) {
        return Ok(());
    }
    known.add(clauses.conclusions[clause as usize], Why::Clause(clause))
}

// Whether all of these cells were derived.
fn are_known(known: &Known, slots: &[u32]) -> bool
    requires { All (λ slot. slot < known.now.cells) slots.now }
    ensures all { result ≡ true → (slot : ℕ) → Contains slots.now slot → IsAmong known.now.derived slot }
    ensures some { result ≡ false → ((slot : ℕ) → Contains slots.now slot → IsAmong known.now.derived slot) → ⊥ }
{
    for slot in slots {
        if known.place(*slot).is_none() {
            return false;
        }
    }
    true
}
