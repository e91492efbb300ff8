ghost use Rattle.std.specs.Prelude.{◌≡◌, ◌+◌, ◌<◌, ◌≤◌, ◌↔◌, All, Contains, IfOk, IsTrue, OnOk, Some, length, slice_get};
ghost use Rattle.current_tuples.specs.Places.{IsEntityOf};
ghost use Rattle.spec_model.specs.Completion.{IsCompletion};
ghost use Rattle.spec_model.specs.declared.relation.Relation.{Relation};
ghost use Rattle.currency_base.specs.Values.{IsValue};
ghost use Rattle.current_claims.specs.Claims.{AreClaimsOf};
ghost use Rattle.current_claims.specs.Listed.{AddsEntity, AddsLastOf, AreClaimsUpTo, AreValuesOf};

use currency_base::{AttrId, EntId, ItemList, NoMemory, RelId, RowId, Tuple, Value};
use current_tuples::{last, last_row};
use report_model::{Current, CurrentList};
use spec_model::{Completion, RelList, Specification};
use std::alloc::Global;

/// A row of an entity, and an attribute in whose list it stands last.
#[derive(Clone, Copy, PartialEq, Eq)]
pub struct CurrentRow {
    pub rel: RelId,
    pub attr: AttrId,
    pub ent: EntId,
    pub row: RowId,
}

/// Rows that stand last, in the order of relation, entity and attribute.
pub type CurrentRowList = ItemList<CurrentRow>;

/// The current tuples of the entities of asked relations in a completion, in order of relation and entity; and the
/// rows that have their values, one for each value, attribute by attribute.
#[derive(Drop)]
pub struct Claims {
    pub items: CurrentList,
    pub rows: CurrentRowList,
}

/// The current tuples of asked relations in a completion, and the rows that have their values.
pub fn claims_of(
    alloc: Global,
    spec: &Specification,
    rels: &RelList,
    completion: &Completion,
) -> Result<Claims, NoMemory>
    requires rels { All (λ rel. rel.0 < length spec.now.relations) rels.now }
    requires completion { IsCompletion spec.now.relations completion.now }
    ensures { IfOk result (AreClaimsOf spec.now.relations rels.now completion.now) }
{
    let mut claims = Claims {
        items: CurrentList::new(alloc),
        rows: CurrentRowList::new(alloc),
    };
    for rel in 0..spec.relations().len() {
        claim_relation(
            alloc,
            spec,
            rels,
            completion,
            RelId(rel as u32),
            &mut claims,
        )?;
    }
    Ok(claims)
}

// The items and rows of a relation behind the others, if the relation is asked about.
fn claim_relation(
    alloc: Global,
    spec: &Specification,
    rels: &RelList,
    completion: &Completion,
    rel: RelId,
    claims: &mut Claims,
) -> Result<(), NoMemory>
    requires rel { rel.0 < length spec.now.relations }
    requires completion { IsCompletion spec.now.relations completion.now }
    requires listed { AreClaimsUpTo spec.now.relations rels.now completion.now rel.0 0 claims.old }
    ensures { OnOk result (AreClaimsUpTo spec.now.relations rels.now completion.now (rel.0 + 1) 0 claims.new) }
{
    if !is_asked(rels, rel) {
        return Ok(());
    }
    for ent in 0..spec.relations()[rel.0 as usize].entities.len() {
        claim_entity(alloc, spec, completion, rel, EntId(ent as u32), claims)?;
    }
    Ok(())
}

// Is the relation asked about?
fn is_asked(rels: &RelList, rel: RelId) -> bool
    ensures { IsTrue result ↔ Contains rels.now rel }
{
    rels.as_slice().contains(&rel)
}

// The item and the rows of an entity behind the others.
fn claim_entity(
    alloc: Global,
    spec: &Specification,
    completion: &Completion,
    rel: RelId,
    ent: EntId,
    claims: &mut Claims,
) -> Result<(), NoMemory>
    requires completion { IsCompletion spec.now.relations completion.now }
    requires entity { IsEntityOf spec.now.relations rel.0 ent.0 }
    ensures { OnOk result (AddsEntity spec.now.relations completion.now rel ent claims.old claims.new) }
{
    let values = entity_values(alloc, spec, completion, rel, ent)?;
    push_last_rows(spec, completion, rel, ent, &mut claims.rows)?;
    claims.items.push(Current { rel, ent, values })
}

// The current values of an entity, attribute by attribute.
fn entity_values(
    alloc: Global,
    spec: &Specification,
    completion: &Completion,
    rel: RelId,
    ent: EntId,
) -> Result<Tuple, NoMemory>
    requires completion { IsCompletion spec.now.relations completion.now }
    requires entity { IsEntityOf spec.now.relations rel.0 ent.0 }
    ensures values { IfOk result (λ values. (r : Relation) → slice_get spec.now.relations rel.0 ≡ Some r
        → AreValuesOf r completion.now rel.0 ent.0 (length r.attrs) values) }
    ensures few { IfOk result (λ values. length values ≤ 4294967294) }
{
    let mut values = Tuple::new(alloc);
    for attr in 0..spec.relations()[rel.0 as usize].attrs.len() {
        let value = last(spec, completion, rel, AttrId(attr as u32), ent);
        is_value(value);
        values.push(value.duplicate(alloc)?)?;
    }
    Ok(values)
}

// The rows that stand last in the lists of an entity behind the others, attribute by attribute.
fn push_last_rows(
    spec: &Specification,
    completion: &Completion,
    rel: RelId,
    ent: EntId,
    rows: &mut CurrentRowList,
) -> Result<(), NoMemory>
    requires completion { IsCompletion spec.now.relations completion.now }
    requires entity { IsEntityOf spec.now.relations rel.0 ent.0 }
    ensures { OnOk result ((r : Relation) → slice_get spec.now.relations rel.0 ≡ Some r
        → AddsLastOf r completion.now rel ent (length r.attrs) rows.old rows.new) }
{
    for attr in 0..spec.relations()[rel.0 as usize].attrs.len() {
        let attr = AttrId(attr as u32);
        let row = last_row(spec, completion, rel, attr, ent);
        rows.push(CurrentRow {
            rel,
            attr,
            ent,
            row,
        })?;
    }
    Ok(())
}

// A law: a value can be written, since its text is a `Name`.
fn is_value(value: &Value)
    ensures { IsValue value.now }
{
    match value {
        Value::Int(number) => {
            let _number = *number;
        }
        Value::Text(name) => {
            let _ = name.bytes();
        }
    }
}
