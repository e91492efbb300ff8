ghost use Rattle.bind_faults.specs.Faults.{and_then, IsDue, IsReadFault};
ghost use Rattle.bound_spec.specs.Growth.{limited};
ghost use Rattle.spec_bind.specs.Bound.{after_rule};

use bind_faults::BindFault;
use bound_spec::{Bound, add_rule};
use rule_bind::bind_rule;
use rule_syntax::RuleTree;
use std::alloc::Global;

/// Binds a rule: it comes after the others, unless a limit is then exceeded.
pub fn bind_ruling(alloc: Global, bound: Bound, tree: &RuleTree) -> Result<Bound, BindFault>
    ensures due { IsDue (and_then (after_rule bound tree.now) limited) result }
    ensures reads { IsReadFault result → ⊥ }
{
    match bind_rule(alloc, &bound.names, &bound.spec, tree) {
        Ok(rule) => add_rule(alloc, bound, rule),
        Err(fault) => Err(fault),
    }
}
