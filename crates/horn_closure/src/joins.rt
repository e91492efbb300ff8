ghost use Rattle.std.specs.Prelude.{◌≡◌, ◌<◌, OnOk};
ghost use Rattle.horn_closure.specs.Steps.{Fits, IsJoinedAhead, IsJoinedBehind, AreJoined};

use crate::Why;
use crate::known::Known;
use crate::squares::{Cell, slot_in};
use currency_base::NoMemory;

/// Derives what goes from end to end of the cell at a place and each one that it meets, or that meets it.
pub fn join(known: &mut Known, cell: Cell, place: u32) -> Result<(), NoMemory>
    requires { Fits cell known.old.cells }
    ensures cells { known.new.cells ≡ known.old.cells }
    ensures ok { OnOk result (AreJoined cell place cell.size known.old.derived known.new.derived) }
{
    for other in 0..cell.size {
        join_ahead(known, cell, place, other)?;
        join_behind(known, cell, place, other)?;
    }
    Ok(())
}

// Derives what goes from the cell's row to another column, where a cell goes there from the cell's column.
fn join_ahead(known: &mut Known, cell: Cell, place: u32, other: u32) -> Result<(), NoMemory>
    requires fits { Fits cell known.old.cells }
    requires other { other < cell.size }
    ensures cells { known.new.cells ≡ known.old.cells }
    ensures ok { OnOk result (IsJoinedAhead cell place other known.old.derived known.new.derived) }
{
    let Some(second) = known.place(slot_in(cell, cell.column, other)) else {
        return Ok(());
    };
    let why = Why::Joined {
        first: place,
        second,
    };
    known.add(slot_in(cell, cell.row, other), why)
}

// Derives what goes from another row to the cell's column, where a cell goes from there to the cell's row.
fn join_behind(known: &mut Known, cell: Cell, place: u32, other: u32) -> Result<(), NoMemory>
    requires fits { Fits cell known.old.cells }
    requires other { other < cell.size }
    ensures cells { known.new.cells ≡ known.old.cells }
    ensures ok { OnOk result (IsJoinedBehind cell place other known.old.derived known.new.derived) }
{
    let Some(first) = known.place(slot_in(cell, other, cell.row)) else {
        return Ok(());
    };
    let why = Why::Joined {
        first,
        second: place,
    };
    known.add(slot_in(cell, other, cell.column), why)
}
