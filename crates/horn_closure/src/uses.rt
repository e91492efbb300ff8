ghost use Rattle.std.specs.Prelude.{◌≡◌, ◌<◌, ◌≤◌, ◌^◌, All, Some, length, slice_get, replicate, IfOk, OnOk};
ghost use Rattle.horn_closure.specs.Steps.{AreUses, AreUsesUpTo, IsUseAdded, IsUseOfEach};

use crate::Clauses;
use currency_base::NoMemory;
use std::alloc::Global;

/// Which clauses have a cell among their premises: of each cell the uses, the last first.
#[derive(Drop)]
pub struct Uses {
    // of each cell, one more than the place of its last use, or 0
    pub lasts: Vec<u32>,
    pub uses: Vec<Use>,
}

/// A use of a cell.
#[derive(Clone, Copy, Drop)]
pub struct Use {
    pub clause: u32,
    /// One more than the place of the use of the same cell before this one, or 0.
    pub before: u32,
}

/// The uses of each of so many cells. Takes time in proportion to the premises.
pub fn uses_of(alloc: Global, clauses: &Clauses, cells: u32) -> Result<Uses, NoMemory>
    requires within { All (All (λ slot. slot < cells)) clauses.now.premises }
    requires few { length clauses.now.premises < 2 ^ 32 }
    ensures uses { IfOk result (λ u. AreUses clauses.now.premises u.lasts.items u.uses.items) }
    ensures cells { IfOk result (λ u. length u.lasts.items ≡ cells) }
{
    let lasts = Vec::from_elem(alloc, 0, cells as usize)?;
    let mut uses = Uses {
        lasts,
        uses: Vec::new(alloc),
    };
    for clause in 0..clauses.premises.len() {
        add_uses(&mut uses, clause as u32, clauses.premises.get(clause))?;
    }
    Ok(uses)
}

// One use more of each premise of a clause.
fn add_uses(uses: &mut Uses, clause: u32, premises: &[u32]) -> Result<(), NoMemory>
    requires { All (λ slot. slot < length uses.old.lasts.items) premises.now }
    ensures cells { length uses.new.lasts.items ≡ length uses.old.lasts.items }
    ensures ok { OnOk result (IsUseOfEach clause premises.now uses.old.lasts.items uses.old.uses.items
        uses.new.lasts.items uses.new.uses.items) }
{
    for slot in premises {
        add_use(uses, clause, *slot)?;
    }
    Ok(())
}

// One use more of a cell; want of memory also where there would be 2^32 uses.
fn add_use(uses: &mut Uses, clause: u32, slot: u32) -> Result<(), NoMemory>
    requires { slot < length uses.old.lasts.items }
    ensures cells { length uses.new.lasts.items ≡ length uses.old.lasts.items }
    ensures ok { OnOk result (IsUseAdded clause slot uses.old.lasts.items uses.old.uses.items uses.new.lasts.items
        uses.new.uses.items) }
{
    if uses.uses.len() >= u32::MAX as usize {
        return Err(NoMemory);
    }
    let last = uses.uses.len() as u32 + 1;
    let before = uses.lasts[slot as usize];
    uses.uses.push(Use { clause, before })?;
    uses.lasts[slot as usize] = last;
    Ok(())
}
