// The claims on the values of the asked relations, place by place.

ghost use Rattle.std.specs.Prelude.{◌≡◌, ◌<◌, ◌+◌, ◌++◌, List, All, length, map, IfOk, OnOk};
ghost use Rattle.currency_base.specs.declared.ids.RelId.{RelId as Rel};
ghost use Rattle.entity_lists.specs.Lists.{entities_of, rows_of};
ghost use Rattle.spec_model.specs.Facts.{IsRelation};
ghost use Rattle.spec_model.specs.Questions.{AreAskedRelations};
ghost use Rattle.value_candidates.specs.Claims.{AreValueClaims};
ghost use Rattle.value_candidates.specs.Steps.{AreMarks, ArePlacePut, ArePutTo, GoesOn, claim_for};

use crate::asked::asked_marks;
use crate::ordering::rows_by_value;
use currency_base::{AttrId, EntId, NoMemory, RelId, RowId};
use entity_lists::EntityLists;
use match_premises::{Premise, PremiseList};
use spec_model::{Relation, Specification};
use std::alloc::Global;

/// The values that the entities of some relations may have: by relation, by entity and by attribute each different value of the
/// entity's rows, in the order of the values, named by one of the rows that have it. Takes time in proportion to the relations
/// and to the rows and attributes of those that are asked about, and for each entity and attribute to the square of the
/// entity's rows at most. Is refused for want of memory alone.
pub fn value_claims(
    alloc: Global,
    spec: &Specification,
    rels: &[RelId],
) -> Result<PremiseList, NoMemory>
    requires { AreAskedRelations spec.now.relations rels.now }
    ensures { IfOk result (AreValueClaims spec.now.relations rels.now) }
{
    let marks = asked_marks(alloc, spec.relations().len(), rels)?;
    let mut claims = PremiseList::new(alloc);
    for rel in 0..spec.relations().len() {
        put_asked(alloc, spec, &marks, RelId(rel as u32), &mut claims)?;
    }
    Ok(claims)
}

/// Puts in the claims on a relation's values, if the relation is marked.
fn put_asked(
    alloc: Global,
    spec: &Specification,
    marks: &[bool],
    rel: RelId,
    claims: &mut PremiseList,
) -> Result<(), NoMemory>
    requires rel { rel.0 < length spec.now.relations }
    requires marks { length marks.now ≡ length spec.now.relations }
    ensures { OnOk result ((rels : List Rel) → AreMarks rels (length spec.now.relations) marks.now
        → ArePutTo spec.now.relations rels rel.0 0 0 claims.old
        → ArePutTo spec.now.relations rels (rel.0 + 1) 0 0 claims.new) }
{
    if !marks[rel.0 as usize] {
        return Ok(());
    }
    let relation = &spec.relations()[rel.0 as usize];
    put_relation(alloc, relation, rel, claims)?;
    Ok(())
}

/// Puts in the claims on a relation's values.
fn put_relation(
    alloc: Global,
    relation: &Relation,
    rel: RelId,
    claims: &mut PremiseList,
) -> Result<(), NoMemory>
    requires { IsRelation relation.now }
    ensures { OnOk result (GoesOn relation.now rel 0 0 claims.old (rel.0 + 1) 0 0 claims.new) }
{
    let groups = EntityLists::new(alloc, relation.rows.as_slice(), relation.entities.len())?;
    for ent in 0..relation.entities.len() {
        let ent = EntId(ent as u32);
        put_entity(alloc, relation, rel, ent, groups.of_entity(ent), claims)?;
    }
    Ok(())
}

/// Puts in the claims on the values of an entity's rows.
fn put_entity(
    alloc: Global,
    relation: &Relation,
    rel: RelId,
    ent: EntId,
    rows: &[RowId],
    claims: &mut PremiseList,
) -> Result<(), NoMemory>
    requires relation { IsRelation relation.now }
    requires rows { rows.now ≡ rows_of (entities_of relation.now.rows) ent.0 }
    ensures { OnOk result (GoesOn relation.now rel ent.0 0 claims.old rel.0 (ent.0 + 1) 0 claims.new) }
{
    for attr in 0..relation.attrs.len() {
        put_place(alloc, relation, rel, AttrId(attr as u32), rows, claims)?;
    }
    Ok(())
}

/// Puts in the claims on the values of an attribute in some rows.
fn put_place(
    alloc: Global,
    relation: &Relation,
    rel: RelId,
    attr: AttrId,
    rows: &[RowId],
    claims: &mut PremiseList,
) -> Result<(), NoMemory>
    requires relation { IsRelation relation.now }
    requires attr { attr.0 < length relation.now.attrs }
    requires rows { All (λ row. row.0 < length relation.now.rows) rows.now }
    ensures { OnOk result (ArePlacePut relation.now.rows rel attr rows.now claims.old claims.new) }
{
    let values = rows_by_value(alloc, &relation.rows, attr, rows)?;
    put_claims(rel, attr, &values, claims)
}

/// Puts in a claim on the value of each row.
fn put_claims(
    rel: RelId,
    attr: AttrId,
    rows: &[RowId],
    claims: &mut PremiseList,
) -> Result<(), NoMemory>
    ensures { OnOk result (claims.new ≡ claims.old ++ map (claim_for rel attr) rows.now) }
{
    for row in rows {
        claims.push(Premise {
            rel,
            attr,
            row: *row,
        })?;
    }
    Ok(())
}
