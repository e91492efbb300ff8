ghost use Rattle.std.specs.Prelude.{◌<◌, All, IfSome, OnOk, length};
ghost use Rattle.entity_ground.specs.Grounds.{AreRuleGrounds};
ghost use Rattle.order_literals.specs.Axioms.{instance_clause};
ghost use Rattle.order_clauses.specs.Added.{Adds, Say};
ghost use Rattle.order_clauses.specs.Listing.{ground_label, ground_labels, rule_labels};
ghost use Rattle.order_clauses.specs.Subject.{variables, IsGroundOf, IsPairOn};

use crate::pushing::{Scratch, push_axiom, put};
use crate::sayings::Sayings;
use currency_base::{ItemList, Lit, NoMemory, RelId, RowId, RuleId};
use denial_rules::RuleInstance;
use flat_lists::FlatLists;
use refutation_log::{LabelRef, Steps};
use std::alloc::Global;

/// Puts the axioms of the rules after the steps: for each of their grounds.
pub(crate) fn ruled(
    alloc: Global,
    sayings: &Sayings<'_>,
    steps: &mut Steps,
    scratch: &mut Scratch,
    grounds: &ItemList<FlatLists<RowId>>,
) -> Result<(), NoMemory>
    requires { AreRuleGrounds sayings.now.spec grounds.now }
    ensures { OnOk result (Adds sayings.now (rule_labels grounds.now) steps.old steps.new) }
{
    for k in 0..sayings.rules() {
        ruled_by(
            alloc,
            sayings,
            steps,
            scratch,
            RuleId(k as u32),
            grounds.get(k),
        )?;
    }
    Ok(())
}

// Those of one rule.
fn ruled_by(
    alloc: Global,
    sayings: &Sayings<'_>,
    steps: &mut Steps,
    scratch: &mut Scratch,
    rule: RuleId,
    grounds: &FlatLists<RowId>,
) -> Result<(), NoMemory>
    requires within { rule.0 < length sayings.now.spec.rules }
    requires grounds { All (IsGroundOf sayings.now.spec rule.0) grounds.now }
    ensures { OnOk result (Adds sayings.now (ground_labels rule grounds.now) steps.old steps.new) }
{
    for place in 0..grounds.len() {
        push_ground(alloc, sayings, steps, scratch, rule, grounds.get(place))?;
    }
    Ok(())
}

// That of one ground.
fn push_ground(
    alloc: Global,
    sayings: &Sayings<'_>,
    steps: &mut Steps,
    scratch: &mut Scratch,
    rule: RuleId,
    rows: &[RowId],
) -> Result<(), NoMemory>
    requires within { rule.0 < length sayings.now.spec.rules }
    requires ground { IsGroundOf sayings.now.spec rule.0 rows.now }
    ensures { OnOk result (Adds sayings.now (ground_label rule rows.now) steps.old steps.new) }
{
    let constraint = sayings.rule(rule);
    let relation = sayings.relation(constraint.relation);
    let Some(instance) = constraint.instance(alloc, &relation.rows, rows) else {
        unreachable!()
    };
    instance_lits(sayings, &mut scratch.lits, constraint.relation, &instance)?;
    let label = LabelRef::Rule { rule, rows };
    push_axiom(
        sayings,
        steps,
        &mut scratch.distinct,
        label,
        scratch.lits.as_slice(),
    )
}

// The literals of an instance's clause, of which some may be the same.
fn instance_lits(
    sayings: &Sayings<'_>,
    lits: &mut Vec<Lit>,
    rel: RelId,
    instance: &RuleInstance,
) -> Result<(), NoMemory>
    requires premises { All (IsPairOn sayings.now.spec rel) instance.now.premises }
    requires conclusion { IfSome instance.now.conclusion (IsPairOn sayings.now.spec rel) }
    ensures { OnOk result (Say (variables sayings.now) lits.new.items (instance_clause rel instance.now)) }
{
    lits.clear();
    for pair in instance.premises.as_slice() {
        put(
            lits,
            sayings.not_before(rel, pair.attr, pair.earlier, pair.later),
        )?;
    }
    match instance.conclusion {
        Some(pair) => put(
            lits,
            sayings.before(rel, pair.attr, pair.earlier, pair.later),
        ),
        None => Ok(()),
    }
}
