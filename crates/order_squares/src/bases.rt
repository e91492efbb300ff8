ghost use Rattle.std.specs.Prelude.{◌≡◌, ◌<◌, ◌+◌, ◌*◌, ◌^◌, IfOk, IfSome};
ghost use Rattle.horn_closure.specs.Least.{cells_of};
ghost use Rattle.order_squares.specs.Squares.{AreBases};

use currency_base::NoMemory;
use std::alloc::Global;

/// How many cells the squares before each one have, and those before the end. Memory is wanting where 32 bits do not
/// hold their number: tables of so many cells would take tens of gigabytes.
pub(crate) fn bases_of(alloc: Global, sizes: &[u32]) -> Result<Vec<u32>, NoMemory>
    ensures bases { IfOk result (λ bases. AreBases sizes.now bases.items) }
    ensures few { IfOk result (λ bases. cells_of sizes.now < 2 ^ 32) }
{
    let mut bases = Vec::new(alloc);
    let mut total = 0;
    bases.push(total)?;
    for size in sizes {
        let Some(next) = after_square(total, *size) else {
            return Err(NoMemory);
        };
        bases.push(next)?;
        total = next;
    }
    Ok(bases)
}

// Where the cells of a square end that begin here.
fn after_square(base: u32, size: u32) -> Option<u32>
    ensures end { IfSome result (λ end. end ≡ base + size * size) }
    ensures few { IfSome result (λ end. end < 2 ^ 32) }
{
    match size.checked_mul(size) {
        Some(cells) => base.checked_add(cells),
        None => None,
    }
}

/// The slot of a cell in a square of this size that begins here.
pub(crate) fn slot_in(base: u32, size: u32, row: usize, column: usize) -> u32
    requires row { row < size }
    requires column { column < size }
    requires few { base + size * size < 2 ^ 32 }
    ensures { result ≡ base + row * size + column }
{
    base + (row * size as usize + column) as u32
}
