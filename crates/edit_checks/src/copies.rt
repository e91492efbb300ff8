ghost use Rattle.std.specs.Prelude.{◌≡◌, IfOk};
ghost use Rattle.spec_model.specs.Completion.{HasShape};

use completion_fill::fill;
use currency_base::NoMemory;
use spec_model::{Completion, Specification};
use std::alloc::Global;

/// A copy of a completion. Takes time in proportion to its lists and their rows.
pub fn copied(
    alloc: Global,
    spec: &Specification,
    completion: &Completion,
) -> Result<Completion, NoMemory>
    requires { HasShape spec.now.relations completion.now }
    ensures { IfOk result (λ copy. copy ≡ completion.now) }
{
    let mut copy = Completion::new(alloc, spec)?;
    fill(alloc, spec, completion, &mut copy)?;
    Ok(copy)
}
