ghost use Rattle.std.specs.Prelude.{◌≡◌, ◌<◌, ◌↔◌, All, IfOk, true};
ghost use Rattle.forced_closure.specs.Kept.{HasLoopIn, IsTable};

use crate::Forced;
use currency_base::NoMemory;
use horn_closure::Derived;
use std::alloc::Global;

/// Of each slot whether its cell was derived.
pub(crate) fn table_of(
    alloc: Global,
    cells: usize,
    derived: &[Derived],
) -> Result<Vec<bool>, NoMemory>
    requires { All (λ d. d.slot < cells) derived.now }
    ensures { IfOk result (λ table. IsTable cells derived.now table.items) }
{
    let mut table = Vec::new(alloc);
    table.resize(cells, false)?;
    for cell in derived {
        table[cell.slot as usize] = true;
    }
    Ok(table)
}

/// Is one of the pairs of one row twice?
pub(crate) fn has_loop(pairs: &[Forced]) -> bool
    ensures { (result ≡ true) ↔ HasLoopIn pairs.now }
{
    for forced in pairs {
        if forced.pair.earlier == forced.pair.later {
            return true;
        }
    }
    false
}
