ghost use Rattle.std.specs.Prelude.{◌≡◌, IfOk};
ghost use Rattle.bind_faults.specs.Faults.{IsDue, IsReadFault};
ghost use Rattle.bound_spec.specs.Growth.{first_limit, limited_at_last, IsWithinLimits};
ghost use Rattle.spec_limits.specs.Limits.{too_many_variables};
ghost use Rattle.spec_limits.specs.Instances.{too_many_instances};

use crate::bound::Bound;
use bind_faults::BindFault;
use currency_base::NoMemory;
use spec_limits::{limit_of_instances, limit_of_variables};
use spec_model::Specification;
use std::alloc::Global;

/// The specification that all statements say, unless it exceeds limit 10, or else limit 11.
pub fn within_limits(alloc: Global, bound: Bound) -> Result<Specification, BindFault>
    ensures due { IsDue (limited_at_last bound) result }
    ensures reads { IsReadFault result → ⊥ }
    ensures within { IfOk result IsWithinLimits }
{
    match limit_at_last(alloc, &bound) {
        Ok(None) => Ok(bound.spec),
        Ok(Some(limit)) => Err(BindFault::Limit(limit)),
        Err(NoMemory) => Err(BindFault::NoMemory),
    }
}

/// The first of limits 10 and 11 that is exceeded.
fn limit_at_last(alloc: Global, bound: &Bound) -> Result<Option<u8>, NoMemory>
    ensures { IfOk result (λ k. k ≡ first_limit (too_many_variables bound.now) (too_many_instances bound.now)) }
{
    match limit_of_variables(alloc, &bound.spec)? {
        Some(limit) => Ok(Some(limit)),
        None => limit_of_instances(alloc, &bound.spec),
    }
}
