ghost use Rattle.std.specs.Prelude.{◌≡◌, ◌<◌, All, IfOk, OnOk, length};
ghost use Rattle.order_squares.specs.Squares.{Stand};
ghost use Rattle.forced_closure.specs.Clauses.{Adds, AreSlots, Concludes, HasGround, OfGroundsAt, OfRule, OfRules};
ghost use Rattle.forced_closure.specs.declared.origin.Origin.TheVariants as origin;

use crate::gathered::Gathered;
use crate::origin::Origin;
use crate::subject::Subject;
use currency_base::{NoMemory, Pair, RelId, RuleId};
use denial_rules::{Conclusion, OrderAtom};
use std::alloc::Global;

/// Puts the clauses of the rules after the others: one for each ground of those that conclude an order atom.
pub(crate) fn add_rules(
    alloc: Global,
    subject: &Subject<'_>,
    gathered: &mut Gathered,
) -> Result<(), NoMemory>
    ensures { OnOk result (Adds subject.now gathered.old gathered.new (OfRules subject.now (length subject.now.spec.rules))) }
{
    for rule in 0..subject.rules() {
        add_rule(alloc, subject, RuleId(rule as u32), gathered)?;
    }
    Ok(())
}

// Puts the clauses of a rule after the others.
fn add_rule(
    alloc: Global,
    subject: &Subject<'_>,
    rule: RuleId,
    gathered: &mut Gathered,
) -> Result<(), NoMemory>
    requires { rule.0 < length subject.now.spec.rules }
    ensures { OnOk result (Adds subject.now gathered.old gathered.new (OfRule subject.now rule)) }
{
    match subject.rule(rule).conclusion {
        Conclusion::Never => Ok(()),
        Conclusion::Order(atom) => add_grounds(alloc, subject, rule, atom, gathered),
    }
}

// Puts the clauses of a rule's grounds after the others.
fn add_grounds(
    alloc: Global,
    subject: &Subject<'_>,
    rule: RuleId,
    atom: OrderAtom,
    gathered: &mut Gathered,
) -> Result<(), NoMemory>
    requires rule { rule.0 < length subject.now.spec.rules }
    requires concludes { Concludes subject.now rule.0 atom }
    ensures { OnOk result (Adds subject.now gathered.old gathered.new (OfGroundsAt subject.now rule)) }
{
    let _ = subject.spec();
    for ground in 0..subject.grounds_of(rule).len() {
        push_ground(alloc, subject, rule, atom, ground, gathered)?;
    }
    Ok(())
}

// Puts the clause of a rule's ground after the others.
fn push_ground(
    alloc: Global,
    subject: &Subject<'_>,
    rule: RuleId,
    atom: OrderAtom,
    ground: usize,
    gathered: &mut Gathered,
) -> Result<(), NoMemory>
    requires rule { rule.0 < length subject.now.spec.rules }
    requires concludes { Concludes subject.now rule.0 atom }
    requires ground { HasGround subject.now rule.0 ground }
    ensures { OnOk result (Adds subject.now gathered.old gathered.new (λ o. o ≡ origin.Rule rule ground)) }
{
    let _ = subject.spec();
    let constraint = subject.rule(rule);
    let rel = constraint.relation;
    let rows = subject.grounds_of(rule).get(ground);
    let Some(instance) = constraint.instance(alloc, &subject.relation(rel).rows, rows) else {
        unreachable!()
    };
    let premises = slots_of(alloc, subject, rel, instance.premises.as_slice())?;
    let pair = Pair {
        attr: atom.attr,
        earlier: rows[atom.earlier as usize],
        later: rows[atom.later as usize],
    };
    let conclusion = subject.slot(rel, pair);
    gathered.push(Origin::Rule { rule, ground }, &premises, conclusion)
}

// The slots of pairs of a relation.
fn slots_of(
    alloc: Global,
    subject: &Subject<'_>,
    rel: RelId,
    pairs: &[Pair],
) -> Result<Vec<u32>, NoMemory>
    requires { All (λ p. Stand subject.now.spec.relations rel.0 p.attr.0 p.earlier p.later) pairs.now }
    ensures { IfOk result (λ slots. AreSlots subject.now.layout rel.0 pairs.now slots.items) }
{
    let mut slots = Vec::new(alloc);
    for pair in pairs {
        slots.push(subject.slot(rel, *pair))?;
    }
    Ok(slots)
}
