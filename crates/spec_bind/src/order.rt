ghost use Rattle.bind_faults.specs.Faults.{and_then, IsDue, IsReadFault};
ghost use Rattle.bound_spec.specs.Growth.{limited};
ghost use Rattle.spec_bind.specs.Bound.{after_order};

use bind_faults::BindFault;
use bound_spec::Bound;
use order_bind::bind_order;
use spec_syntax::OrderingTree;
use std::alloc::Global;

/// Binds an ordering. More given pairs exceed no limit.
pub fn bind_ordering(
    alloc: Global,
    bound: Bound,
    ordering: &OrderingTree,
) -> Result<Bound, BindFault>
    ensures due { IsDue (and_then (after_order bound ordering.now) limited) result }
    ensures reads { IsReadFault result → ⊥ }
{
    let Bound {
        mut spec,
        names,
        rows,
    } = bound;
    match bind_order(alloc, &names, &mut spec, ordering) {
        Ok(()) => Ok(Bound { spec, names, rows }),
        Err(fault) => Err(fault),
    }
}
