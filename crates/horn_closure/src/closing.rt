ghost use Rattle.std.specs.Prelude.{◌≡◌, ◌<◌, All, length, IfOk, OnOk};
ghost use Rattle.horn_closure.specs.Least.{IsHorn, AreLeast};
ghost use Rattle.horn_closure.specs.Steps.{AreGiven, IsReady, IsClosing, IsGoneOver};

use crate::joins::join;
use crate::known::Known;
use crate::looks::{look_at_all, look_at_uses};
use crate::squares::{bases_of, cell_at};
use crate::uses::{Uses, uses_of};
use crate::{Derived, Why};
use currency_base::NoMemory;
use flat_lists::FlatLists;
use std::alloc::Global;

/// Clauses: the slots of each one's premises, and that of its conclusion.
#[derive(Drop)]
pub struct Clauses {
    pub premises: FlatLists<u32>,
    pub conclusions: Vec<u32>,
}

/// The cells of the least set in the order in which they are derived: it has the facts, what the clauses conclude of
/// it, and of two of its cells that meet the one from end to end. Takes time in proportion to the squares of the
/// numbers of clauses' premises, and for each cell to the size of its square and the logarithm of the number of squares.
pub fn least(
    alloc: Global,
    sizes: &[u32],
    facts: &[u32],
    clauses: &Clauses,
) -> Result<Vec<Derived>, NoMemory>
    requires { IsHorn (record {
      sizes = sizes.now;
      facts = facts.now;
      premises = clauses.now.premises;
      conclusions =
          clauses.now.conclusions.items;
    }) }
    ensures { IfOk result (λ derived. AreLeast
        (record {
          sizes = sizes.now;
          facts = facts.now;
          premises = clauses.now.premises;
          conclusions =
              clauses.now.conclusions.items;
        }) derived.items) }
{
    let (bases, cells) = bases_of(alloc, sizes)?;
    let uses = uses_of(alloc, clauses, cells)?;
    let mut known = Known::new(alloc, cells)?;
    add_facts(&mut known, facts)?;
    look_at_all(&mut known, clauses)?;
    close(&mut known, sizes, &bases, clauses, &uses)?;
    Ok(known.into_derived())
}

// Derives what is given.
fn add_facts(known: &mut Known, facts: &[u32]) -> Result<(), NoMemory>
    requires { All (λ slot. slot < known.old.cells) facts.now }
    ensures cells { known.new.cells ≡ known.old.cells }
    ensures ok { OnOk result (AreGiven facts.now known.old.derived known.new.derived) }
{
    for slot in facts {
        known.add(*slot, Why::Fact)?;
    }
    Ok(())
}

// Goes over the cells in the order in which they are derived, and derives what follows of each and of those before.
fn close(
    known: &mut Known,
    sizes: &[u32],
    bases: &[u32],
    clauses: &Clauses,
    uses: &Uses,
) -> Result<(), NoMemory>
    requires { IsReady sizes.now bases.now clauses.now.premises clauses.now.conclusions.items uses.now.lasts.items
        uses.now.uses.items known.old.cells }
    ensures { OnOk result (IsClosing sizes.now clauses.now.premises clauses.now.conclusions.items known.old.derived
        known.new.derived) }
{
    let mut next = 0;
    while next < known.len() {
        go_over(known, sizes, bases, clauses, uses, next)?;
        next += 1;
    }
    Ok(())
}

// Derives what follows of the cell at a place and of others that were derived.
fn go_over(
    known: &mut Known,
    sizes: &[u32],
    bases: &[u32],
    clauses: &Clauses,
    uses: &Uses,
    place: u32,
) -> Result<(), NoMemory>
    requires ready { IsReady sizes.now bases.now clauses.now.premises clauses.now.conclusions.items
        uses.now.lasts.items uses.now.uses.items known.old.cells }
    requires there { place < length known.old.derived }
    ensures cells { known.new.cells ≡ known.old.cells }
    ensures ok { OnOk result (IsGoneOver sizes.now clauses.now.premises clauses.now.conclusions.items place
        known.old.derived known.new.derived) }
{
    let slot = known.slot(place);
    join(known, cell_at(sizes, bases, slot), place)?;
    look_at_uses(known, clauses, uses, slot)
}
