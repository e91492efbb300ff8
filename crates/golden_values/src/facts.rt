//! For each field of a relation the fact that the value which a completion has there is the current one.

ghost use Rattle.std.specs.Prelude.{◌≡◌, ◌<◌, ◌+◌, IfOk, OnOk, Some, length, slice_get};
ghost use Rattle.current_tuples.specs.Places.{IsPlaceOf};
ghost use Rattle.spec_model.specs.Completion.{IsCompletion};
ghost use Rattle.spec_model.specs.Facts.{IsRelation};
ghost use Rattle.spec_model.specs.declared.relation.Relation.{Relation as Relations};
ghost use Rattle.golden_values.specs.Steps.{AreClaims, AreClaimsTo, IsClaimAt};

use crate::relations::relation_at;
use currency_base::{AttrId, EntId, NoMemory, RelId};
use current_tuples::last_row;
use match_premises::Premise;
use posed_facts::Fact;
use spec_model::{Completion, Relation, Specification};
use std::alloc::Global;

/// The facts for all fields of a relation, in order.
pub(crate) fn facts_of(
    alloc: Global,
    spec: &Specification,
    rel: RelId,
    completion: &Completion,
) -> Result<Vec<Fact>, NoMemory>
    requires rel { rel.0 < length spec.now.relations }
    requires completion { IsCompletion spec.now.relations completion.now }
    ensures { IfOk result (λ facts. AreClaims spec.now.relations rel.0 completion.now facts.items) }
{
    let relation = relation_at(spec, rel);
    let mut facts = Vec::new(alloc);
    for ent in 0..relation.entities.len() {
        put_facts(
            spec,
            relation,
            completion,
            rel,
            EntId(ent as u32),
            &mut facts,
        )?;
    }
    Ok(facts)
}

/// Puts in the facts for the fields of an entity.
fn put_facts(
    spec: &Specification,
    relation: &Relation,
    completion: &Completion,
    rel: RelId,
    ent: EntId,
    facts: &mut Vec<Fact>,
) -> Result<(), NoMemory>
    requires relation { slice_get spec.now.relations rel.0 ≡ Some relation.now }
    requires facts { IsRelation relation.now }
    requires ent { ent.0 < length relation.now.entities }
    requires completion { IsCompletion spec.now.relations completion.now }
    requires so_far { AreClaimsTo rel.0 relation.now completion.now ent.0 0 facts.old.items }
    ensures { OnOk result (AreClaimsTo rel.0 relation.now completion.now (ent.0 + 1) 0 facts.new.items) }
{
    for attr in 0..relation.attrs.len() {
        let fact = fact_at(spec, completion, rel, AttrId(attr as u32), ent);
        facts.push(fact)?;
    }
    Ok(())
}

/// The fact for a field.
fn fact_at(
    spec: &Specification,
    completion: &Completion,
    rel: RelId,
    attr: AttrId,
    ent: EntId,
) -> Fact
    requires completion { IsCompletion spec.now.relations completion.now }
    requires place { IsPlaceOf spec.now.relations rel.0 attr.0 ent.0 }
    ensures { (r : Relations) → slice_get spec.now.relations rel.0 ≡ Some r
        → IsClaimAt rel.0 r completion.now ent.0 attr.0 result }
{
    let _ = spec.relations();
    let row = last_row(spec, completion, rel, attr, ent);
    Fact::Current(Premise { rel, attr, row })
}
