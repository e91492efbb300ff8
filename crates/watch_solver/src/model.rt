ghost use Rattle.std.specs.Prelude.{IfOk};
ghost use Rattle.watch_solver.specs.Decided.{AreTruths};

use currency_base::{Assignment, NoMemory};
use search_trail::Values;
use std::alloc::Global;

/// The truths of variables by their values. A variable that has none is false.
pub(crate) fn truths_of(alloc: Global, values: &Values) -> Result<Assignment, NoMemory>
    ensures { IfOk result (AreTruths values.now.given) }
{
    let Ok(mut truths) = Assignment::new(alloc, values.len()) else {
        return Err(NoMemory);
    };
    for var in 0..values.len() {
        truths.set(var, values.value(var).unwrap_or(false));
    }
    Ok(truths)
}
