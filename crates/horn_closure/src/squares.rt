ghost use Rattle.std.specs.Prelude.{◌≡◌, ◌<◌, ◌≤◌, ◌+◌, ◌*◌, ◌^◌, IfOk};
ghost use Rattle.horn_closure.specs.Least.{cells_of};
ghost use Rattle.horn_closure.specs.Steps.{AreBases, IsCellAt, IsPlaced, slot_of};

use currency_base::NoMemory;
use flat_lists::last_up_to;
use std::alloc::Global;

/// A cell: how many cells there are before its square, how many rows the square has, and the cell's row and column.
#[derive(Clone, Copy)]
pub struct Cell {
    pub base: u32,
    pub size: u32,
    pub row: u32,
    pub column: u32,
}

/// Of each square, how many cells there are before it; and how many there are in all.
pub fn bases_of(alloc: Global, sizes: &[u32]) -> Result<(Vec<u32>, u32), NoMemory>
    requires { cells_of sizes.now < 2 ^ 32 }
    ensures bases { IfOk result (λ r. AreBases sizes.now r.0.items) }
    ensures cells { IfOk result (λ r. r.1 ≡ cells_of sizes.now) }
{
    let mut bases = Vec::new(alloc);
    let mut cells = 0;
    for size in sizes {
        bases.push(cells)?;
        cells += *size * *size;
    }
    Ok((bases, cells))
}

/// The cell of a slot. Takes time in proportion to the logarithm of the number of squares.
pub fn cell_at(sizes: &[u32], bases: &[u32], slot: u32) -> Cell
    requires bases { AreBases sizes.now bases.now }
    requires within { slot < cells_of sizes.now }
    ensures { IsCellAt sizes.now result slot }
{
    let square = last_up_to(bases, slot);
    cell_in(bases[square], sizes[square], slot)
}

// The cell of a slot in a square.
fn cell_in(base: u32, size: u32, slot: u32) -> Cell
    requires order { base ≤ slot }
    requires within { slot < base + size * size }
    ensures { IsPlaced base size slot result }
{
    let place = slot - base;
    Cell {
        base,
        size,
        row: place / size,
        column: place % size,
    }
}

/// The slot of the cell in this row and column of the square of a cell.
pub fn slot_in(cell: Cell, row: u32, column: u32) -> u32
    requires row { row < cell.size }
    requires column { column < cell.size }
    requires inside { cell.base + cell.size * cell.size < 2 ^ 32 }
    ensures slot { result ≡ slot_of cell row column }
    ensures within { result < cell.base + cell.size * cell.size }
{
    cell.base + (row * cell.size + column)
}
