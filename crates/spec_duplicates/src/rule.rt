ghost use Rattle.std.specs.Prelude.{◌≡◌, IfOk};

use currency_base::NoMemory;
use denial_rules::{Operand, Predicate, PredicateList, Rule};
use std::alloc::Global;

/// The rule, copied.
pub fn copied_rule(alloc: Global, rule: &Rule) -> Result<Rule, NoMemory>
    ensures { IfOk result (λ copy. copy ≡ rule.now) }
{
    Ok(Rule {
        name: rule.name.duplicate(alloc)?,
        relation: rule.relation,
        vars: rule.vars,
        predicates: copied_predicates(alloc, &rule.predicates)?,
        conclusion: rule.conclusion,
    })
}

/// The predicates, copied.
fn copied_predicates(alloc: Global, predicates: &PredicateList) -> Result<PredicateList, NoMemory>
    ensures { IfOk result (λ copy. copy ≡ predicates.now) }
{
    let mut list = PredicateList::new(alloc);
    for predicate in predicates.as_slice() {
        list.push(copied_predicate(alloc, predicate)?)?;
    }
    Ok(list)
}

/// The predicate, copied.
fn copied_predicate(alloc: Global, predicate: &Predicate) -> Result<Predicate, NoMemory>
    ensures { IfOk result (λ copy. copy ≡ predicate.now) }
{
    match predicate {
        Predicate::Order(atom) => Ok(Predicate::Order(*atom)),
        Predicate::Compare { left, cmp, right } => Ok(Predicate::Compare {
            left: copied_operand(alloc, left)?,
            cmp: *cmp,
            right: copied_operand(alloc, right)?,
        }),
    }
}

/// The operand, copied.
fn copied_operand(alloc: Global, operand: &Operand) -> Result<Operand, NoMemory>
    ensures { IfOk result (λ copy. copy ≡ operand.now) }
{
    match operand {
        Operand::Field { var, attr } => Ok(Operand::Field {
            var: *var,
            attr: *attr,
        }),
        Operand::Constant(value) => Ok(Operand::Constant(value.duplicate(alloc)?)),
    }
}
