ghost use Rattle.std.specs.Prelude.{◌≡◌, ◌≤◌, ◌++◌, IfOk, OnOk, Some, length, map};
ghost use Rattle.log_axioms.specs.Axioms.{rule_clause, instance_clause, instance_said, concluded_clause, not_before};

use crate::conditions::of_one_entity;
use crate::{Signed, SignedList};
use currency_base::{NoMemory, Pair, RelId, RowId};
use denial_rules::RuleInstance;
use spec_model::{Relation, Rule};
use std::alloc::Global;

/// The clause of the instance of a rule for these rows, one per variable and all of one entity.
pub(crate) fn rule_clause(
    alloc: Global,
    rule: &Rule,
    rows: &[RowId],
    relation: &Relation,
) -> Result<Option<SignedList>, NoMemory>
    requires { length rule.now.predicates ≤ 16 }
    ensures { IfOk result (λ clause. clause ≡ rule_clause rule.now rows.now relation.now) }
{
    if !(rows.len() == rule.vars as usize && of_one_entity(relation.rows.as_slice(), rows)) {
        return Ok(None);
    }
    match rule.instance(alloc, &relation.rows, rows) {
        Some(instance) => instance_clause(alloc, rule.relation, &instance),
        None => Ok(None),
    }
}

// The negation of each premise, and the conclusion, if there is one.
fn instance_clause(
    alloc: Global,
    rel: RelId,
    instance: &RuleInstance,
) -> Result<Option<SignedList>, NoMemory>
    ensures { IfOk result (λ clause. clause ≡ instance_clause rel (Some instance.now)) }
{
    let mut clause = SignedList::new(alloc);
    add_instance(&mut clause, rel, instance)?;
    Ok(Some(clause))
}

// Puts them into the clause.
fn add_instance(
    clause: &mut SignedList,
    rel: RelId,
    instance: &RuleInstance,
) -> Result<(), NoMemory>
    ensures { OnOk result (clause.new ≡ clause.old ++ instance_said rel instance.now) }
{
    add_premises(clause, rel, instance.premises.as_slice())?;
    add_conclusion(clause, rel, instance.conclusion)
}

// Puts into the clause the negation of each premise.
fn add_premises(clause: &mut SignedList, rel: RelId, premises: &[Pair]) -> Result<(), NoMemory>
    ensures { OnOk result (clause.new ≡ clause.old ++ map (λ p. not_before rel p.attr p.earlier p.later) premises.now) }
{
    for pair in premises {
        clause.push(Signed::not_before(rel, pair.attr, pair.earlier, pair.later))?;
    }
    Ok(())
}

// Puts the conclusion into the clause, if there is one.
fn add_conclusion(
    clause: &mut SignedList,
    rel: RelId,
    conclusion: Option<Pair>,
) -> Result<(), NoMemory>
    ensures { OnOk result (clause.new ≡ clause.old ++ concluded_clause rel conclusion) }
{
    match conclusion {
        Some(pair) => clause.push(Signed::before(rel, pair.attr, pair.earlier, pair.later)),
        None => Ok(()),
    }
}
