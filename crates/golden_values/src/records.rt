//! The fields of a relation, by what is shown of their facts.

ghost use Rattle.std.specs.Prelude.{◌≡◌, ◌<◌, IfOk, Some, length, slice_get};
ghost use Rattle.current_tuples.specs.Places.{IsEntityOf, IsPlaceOf};
ghost use Rattle.spec_model.specs.declared.relation.Relation.{Relation as Relations};
ghost use Rattle.golden_values.specs.Golden.{AreFields, AreGolden, IsField};
ghost use Rattle.golden_values.specs.Steps.{AreClaimsShown, field_by};

use crate::field::{Field, FieldList, FieldTable};
use crate::relations::relation_at;
use currency_base::{NoMemory, RelId};
use decided_facts::Shown;
use posed_facts::Fact;
use spec_model::Specification;
use std::alloc::Global;

/// The facts for all fields of a relation, and what is shown of them.
#[derive(Clone, Copy)]
pub(crate) struct Fields<'a> {
    pub spec: &'a Specification,
    pub rel: RelId,
    pub facts: &'a [Fact],
    pub shown: &'a [Shown],
}

/// The fields of each entity.
pub(crate) fn table_of(alloc: Global, fields: &Fields<'_>) -> Result<FieldTable, NoMemory>
    requires rel { fields.now.rel.0 < length fields.now.spec.now.relations }
    requires shown { AreClaimsShown fields.now.spec.now fields.now.rel.0 fields.now.facts.now fields.now.shown.now }
    ensures { IfOk result (AreGolden fields.now.spec.now fields.now.rel.0) }
{
    let relation = relation_at(fields.spec, fields.rel);
    let mut table = FieldTable::new(alloc);
    for ent in 0..relation.entities.len() {
        let record = record_of(alloc, fields, ent)?;
        table.push(record)?;
    }
    Ok(table)
}

/// The fields of an entity.
fn record_of(alloc: Global, fields: &Fields<'_>, ent: usize) -> Result<FieldList, NoMemory>
    requires entity { IsEntityOf fields.now.spec.now.relations fields.now.rel.0 ent }
    requires shown { AreClaimsShown fields.now.spec.now fields.now.rel.0 fields.now.facts.now fields.now.shown.now }
    ensures { IfOk result (λ list. (r : Relations) → slice_get fields.now.spec.now.relations fields.now.rel.0 ≡ Some r
        → AreFields fields.now.spec.now fields.now.rel.0 r ent list) }
{
    let relation = relation_at(fields.spec, fields.rel);
    let mut list = FieldList::new(alloc);
    for attr in 0..relation.attrs.len() {
        list.push(field_at(fields, ent, attr))?;
    }
    Ok(list)
}

/// The field of an attribute of an entity.
fn field_at(fields: &Fields<'_>, ent: usize, attr: usize) -> Field
    requires place { IsPlaceOf fields.now.spec.now.relations fields.now.rel.0 attr ent }
    requires shown { AreClaimsShown fields.now.spec.now fields.now.rel.0 fields.now.facts.now fields.now.shown.now }
    ensures { (r : Relations) → slice_get fields.now.spec.now.relations fields.now.rel.0 ≡ Some r
        → IsField fields.now.spec.now fields.now.rel.0 r ent attr result }
{
    let relation = relation_at(fields.spec, fields.rel);
    let place = ent * relation.attrs.len() + attr;
    field_by(&fields.facts[place], fields.shown[place])
}

/// The field whose fact this is, by what is shown of it.
fn field_by(fact: &Fact, shown: Shown) -> Field
    ensures { result ≡ field_by fact.now shown }
{
    match (fact, shown) {
        (Fact::Current(claim), Shown::Holds) => Field::Value(claim.row),
        _ => Field::Open,
    }
}
