ghost use Rattle.std.specs.Prelude.{◌≡◌, ◌<◌, ◌^◌, MatchOption, None, IfOk, length};
ghost use Rattle.spec_names.specs.Names.{all_names_of};
ghost use Rattle.currency_report.specs.Ids.{IsAttrOf, IsEntityOf, IsPlaceOf, row_among, rows_among};
ghost use Rattle.currency_report.specs.Places.{attr_named, entity_named, place_named};

use currency_base::{AttrId, EntId, NoMemory, RelId, RowId, RowList};
use name_index::NameIndex;
use spec_model::Specification;
use spec_names::SpecNames;
use std::alloc::Global;
use text_grammar::Named;

/// A relation and one of its attributes.
#[derive(Clone, Copy)]
pub struct AttrIds {
    pub rel: RelId,
    pub attr: AttrId,
}

/// A relation and one of its entities.
#[derive(Clone, Copy)]
pub struct EntityIds {
    pub rel: RelId,
    pub ent: EntId,
}

/// A relation, one of its attributes and one of its entities.
#[derive(Clone, Copy)]
pub struct PlaceIds {
    pub rel: RelId,
    pub attr: AttrId,
    pub ent: EntId,
}

/// The attribute that a relation's name and its own name, if the specification has it.
pub fn attr_named(
    spec: &Specification,
    names: &SpecNames,
    relation: &Named,
    attr: &Named,
) -> Option<AttrIds>
    requires { names.now ≡ all_names_of spec.now }
    ensures { MatchOption result (attr_named spec.now.relations relation.now attr.now ≡ None)
        (IsAttrOf spec.now.relations relation.now attr.now) }
{
    // A specification's ids fit 32 bits: that is what this call tells.
    let _relations = spec.relations();
    let rel = names.relations().find(&relation.name)?;
    let parts = names.relation(rel);
    let attr = parts.attrs.find(&attr.name)?;
    Some(AttrIds {
        rel: RelId(rel as u32),
        attr: AttrId(attr as u32),
    })
}

/// The entity that a relation's name and its own name, if the specification has it.
pub fn entity_named(
    spec: &Specification,
    names: &SpecNames,
    relation: &Named,
    entity: &Named,
) -> Option<EntityIds>
    requires { names.now ≡ all_names_of spec.now }
    ensures { MatchOption result (entity_named spec.now.relations relation.now entity.now ≡ None)
        (IsEntityOf spec.now.relations relation.now entity.now) }
{
    // A specification's ids fit 32 bits: that is what this call tells.
    let _relations = spec.relations();
    let rel = names.relations().find(&relation.name)?;
    let parts = names.relation(rel);
    let ent = parts.entities.find(&entity.name)?;
    Some(EntityIds {
        rel: RelId(rel as u32),
        ent: EntId(ent as u32),
    })
}

/// The attribute and the entity of one relation that three names name, if the specification has them.
pub fn place_named(
    spec: &Specification,
    names: &SpecNames,
    relation: &Named,
    attr: &Named,
    entity: &Named,
) -> Option<PlaceIds>
    requires { names.now ≡ all_names_of spec.now }
    ensures { MatchOption result (place_named spec.now.relations relation.now attr.now entity.now ≡ None)
        (IsPlaceOf spec.now.relations relation.now attr.now entity.now) }
{
    // A specification's ids fit 32 bits: that is what this call tells.
    let _relations = spec.relations();
    let rel = names.relations().find(&relation.name)?;
    let parts = names.relation(rel);
    let attr = parts.attrs.find(&attr.name)?;
    let ent = parts.entities.find(&entity.name)?;
    Some(PlaceIds {
        rel: RelId(rel as u32),
        attr: AttrId(attr as u32),
        ent: EntId(ent as u32),
    })
}

/// The row of a name, where there is one.
pub fn row_named(names: &NameIndex, row: &Named) -> Option<RowId>
    requires { length names.now < 2 ^ 32 }
    ensures { result ≡ row_among names.now row.now }
{
    match names.find(&row.name) {
        Some(place) => Some(RowId(place as u32)),
        None => None,
    }
}

/// The rows of these names, where there is a row of each.
pub fn rows_named(
    alloc: Global,
    names: &NameIndex,
    rows: &[Named],
) -> Result<Option<RowList>, NoMemory>
    requires { length names.now < 2 ^ 32 }
    ensures { IfOk result (λ found. found ≡ rows_among names.now rows.now) }
{
    let mut found = RowList::new(alloc);
    for row in rows {
        let Some(row) = row_named(names, row) else {
            return Ok(None);
        };
        found.push(row)?;
    }
    Ok(Some(found))
}
