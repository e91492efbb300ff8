ghost use Rattle.std.specs.Prelude.{◌<◌, IfOk, OnOk, length, Contains, ◌≡◌, Some, slice_get};
ghost use Rattle.currency_base.specs.declared.pair.Pair as pairs;
ghost use Rattle.forced_closure.specs.Forced.{IsGiven};
ghost use Rattle.forced_closure.specs.Clauses.{AreFacts, AreOfGiven, Grows, HasFact};

use crate::subject::Subject;
use currency_base::{NoMemory, Pair, RelId};
use std::alloc::Global;

/// The slots of the given pairs.
pub(crate) fn facts_of(alloc: Global, subject: &Subject<'_>) -> Result<Vec<u32>, NoMemory>
    ensures { IfOk result (λ facts. AreFacts subject.now facts.items) }
{
    let mut facts = Vec::new(alloc);
    for rel in 0..subject.relations() {
        add_given(subject, RelId(rel as u32), &mut facts)?;
    }
    Ok(facts)
}

// Puts the slots of a relation's given pairs after the others.
fn add_given(subject: &Subject<'_>, rel: RelId, facts: &mut Vec<u32>) -> Result<(), NoMemory>
    requires rel { rel.0 < length subject.now.spec.relations }
    requires each { AreOfGiven subject.now facts.old.items }
    ensures each { OnOk result (AreOfGiven subject.now facts.new.items) }
    ensures grows { OnOk result (Grows facts.old.items facts.new.items) }
    ensures all { OnOk result ((p : pairs.Pair) → IsGiven subject.now.spec rel.0 p → HasFact subject.now
        facts.new.items rel.0 p) }
{
    for pair in subject.relation(rel).given.iter() {
        push_given(subject, rel, *pair, facts)?;
    }
    Ok(())
}

// Puts the slot of a given pair after the others.
fn push_given(
    subject: &Subject<'_>,
    rel: RelId,
    pair: Pair,
    facts: &mut Vec<u32>,
) -> Result<(), NoMemory>
    requires given { IsGiven subject.now.spec rel.0 pair }
    requires each { AreOfGiven subject.now facts.old.items }
    ensures each { OnOk result (AreOfGiven subject.now facts.new.items) }
    ensures grows { OnOk result (Grows facts.old.items facts.new.items) }
    ensures is_in { OnOk result (HasFact subject.now facts.new.items rel.0 pair) }
{
    let _ = subject.spec();
    facts.push(subject.slot(rel, pair))?;
    Ok(())
}
