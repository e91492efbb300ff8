ghost use Rattle.std.specs.Prelude.{◌≡◌, ◌≤◌, ◌++◌, ◌∷◌, [], None, length, map, Contains, IfOk, OnOk};
ghost use Rattle.bind_faults.specs.Faults.{IsDue, IsReadFault};
ghost use Rattle.spec_model.specs.Facts.{IsRuleOf};
ghost use Rattle.spec_limits.specs.Limits.{exceeded};
ghost use Rattle.spec_names.specs.Names.{all_names_of};
ghost use Rattle.bound_spec.specs.Growth.{limited, with_rule};

use crate::bound::{Bound, discard, discard_parts};
use crate::laws::is_specification;
use bind_faults::BindFault;
use currency_base::NoMemory;
use spec_limits::limit_with_rule;
use spec_model::{Rule, Specification};
use spec_names::SpecNames;
use std::alloc::Global;

/// Adds a rule after the others, unless a limit is then exceeded.
pub fn add_rule(alloc: Global, bound: Bound, rule: Rule) -> Result<Bound, BindFault>
    requires fits { rule.vars ≤ 4 → length rule.predicates ≤ 16 → IsRuleOf bound.relations rule }
    requires fresh { Contains (map (λ r. r.name) bound.rules) rule.name → ⊥ }
    ensures due { IsDue (limited (with_rule bound rule)) result }
    ensures reads { IsReadFault result → ⊥ }
{
    match limit_with_rule(&bound.spec, &rule) {
        Some(limit) => {
            discard(bound);
            Err(BindFault::Limit(limit))
        }
        None => match with_rule(alloc, bound, rule) {
            Ok(bound) => Ok(bound),
            Err(NoMemory) => Err(BindFault::NoMemory),
        },
    }
}

/// Adds a rule with which no limit is exceeded.
fn with_rule(alloc: Global, bound: Bound, rule: Rule) -> Result<Bound, NoMemory>
    requires fits { rule.vars ≤ 4 → length rule.predicates ≤ 16 → IsRuleOf bound.relations rule }
    requires fresh { Contains (map (λ r. r.name) bound.rules) rule.name → ⊥ }
    requires within { exceeded (with_rule bound rule) ≡ None }
    ensures { IfOk result (λ new. new ≡ with_rule bound rule) }
{
    let Bound {
        mut spec,
        mut names,
        rows,
    } = bound;
    match put_rule(alloc, &mut spec, &mut names, rule) {
        Ok(()) => Ok(Bound { spec, names, rows }),
        Err(NoMemory) => {
            discard_parts(spec, names);
            Err(NoMemory)
        }
    }
}

/// Puts a rule after the others, and its name after theirs.
fn put_rule(
    alloc: Global,
    spec: &mut Specification,
    names: &mut SpecNames,
    rule: Rule,
) -> Result<(), NoMemory>
    requires fits { rule.vars ≤ 4 → length rule.predicates ≤ 16 → IsRuleOf spec.old.relations rule }
    requires fresh { Contains (map (λ r. r.name) spec.old.rules) rule.name → ⊥ }
    requires within { exceeded spec.old ≡ None }
    requires follows { exceeded (with_rule spec.old rule) ≡ None }
    requires names { names.old ≡ all_names_of spec.old }
    ensures spec { OnOk result (spec.new ≡ with_rule spec.old rule) }
    ensures names { OnOk result (names.new ≡ record names.old { rules = names.old.rules ++ rule.name ∷ [] }) }
{
    is_specification(spec);
    let name = rule.name.duplicate(alloc)?;
    spec.add_rule(rule)?;
    names.add_rule(name)
}
