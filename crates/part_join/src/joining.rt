ghost use Rattle.std.specs.Prelude.{◌≡◌, ◌<◌, ◌+◌, [], All, IfOk, OnOk, length, map, slice_index_or};
ghost use Rattle.spec_model.specs.Completion.{HasShape};
ghost use Rattle.part_laws.specs.Parts.{Scope, ArePlacesOf, entities_in, whole_row};
ghost use Rattle.part_join.specs.Fits.{FitsPart};
ghost use Rattle.part_join.specs.Joined.{IsJoined};
ghost use Rattle.part_join.specs.Steps.{ArePutSoFar, AreToPut, KeepsRest};

use completion_fill::fill;
use currency_base::{AttrId, NoMemory, RelId, RowId, RowList};
use part_places::Places;
use spec_model::{Completion, Specification};
use std::alloc::Global;

/// The completion that ranks the rows of a part as a completion of the part does, and all other rows as another one of the whole
/// does. Takes time in proportion to the other completion and the part.
pub fn joined(
    alloc: Global,
    spec: &Specification,
    places: &Places,
    other: &Completion,
    narrow: &Completion,
) -> Result<Completion, NoMemory>
    requires places { (scope : Scope) × ArePlacesOf spec.now.relations scope places.now }
    requires other { HasShape spec.now.relations other.now }
    requires narrow { FitsPart spec.now.relations places.now narrow.now }
    ensures { IfOk result (IsJoined spec.now.relations places.now other.now narrow.now) }
{
    let mut completion = copied(alloc, spec, other)?;
    put(alloc, spec, places, narrow, &mut completion)?;
    Ok(completion)
}

/// Ranks the rows of a part in a completion of the whole as a completion of the part does. Takes time in proportion to the
/// relations and the part. Where memory runs out, some of the rows are ranked so.
pub fn put(
    alloc: Global,
    spec: &Specification,
    places: &Places,
    narrow: &Completion,
    completion: &mut Completion,
) -> Result<(), NoMemory>
    requires places { (scope : Scope) × ArePlacesOf spec.now.relations scope places.now }
    requires shape { HasShape spec.now.relations completion.old }
    requires narrow { FitsPart spec.now.relations places.now narrow.now }
    ensures { OnOk result (IsJoined spec.now.relations places.now completion.old narrow.now completion.new) }
{
    put_part(alloc, spec, places, narrow, completion)?;
    Ok(())
}

// A copy of a completion.
fn copied(alloc: Global, spec: &Specification, other: &Completion) -> Result<Completion, NoMemory>
    requires { HasShape spec.now.relations other.now }
    ensures { IfOk result (λ c. c ≡ other.now) }
{
    let mut completion = Completion::new(alloc, spec)?;
    fill(alloc, spec, other, &mut completion)?;
    Ok(completion)
}

// Sets the lists of the part.
fn put_part(
    alloc: Global,
    spec: &Specification,
    places: &Places,
    narrow: &Completion,
    completion: &mut Completion,
) -> Result<(), NoMemory>
    requires places { (scope : Scope) × ArePlacesOf spec.now.relations scope places.now }
    requires narrow { FitsPart spec.now.relations places.now narrow.now }
    requires shape { HasShape spec.now.relations completion.old }
    ensures put { OnOk result (ArePutSoFar places.now narrow.now (length spec.now.relations) 0 0 completion.new) }
    ensures rest { KeepsRest places.now completion.old completion.new }
{
    for rel in 0..spec.relations().len() {
        put_relation(alloc, places, narrow, RelId(rel as u32), completion)?;
    }
    Ok(())
}

// Sets those of one relation.
fn put_relation(
    alloc: Global,
    places: &Places,
    narrow: &Completion,
    rel: RelId,
    completion: &mut Completion,
) -> Result<(), NoMemory>
    requires to_put { AreToPut places.now narrow.now }
    requires rel { rel.0 < length narrow.now }
    requires so_far { ArePutSoFar places.now narrow.now rel.0 0 0 completion.old }
    ensures put { OnOk result (ArePutSoFar places.now narrow.now (rel.0 + 1) 0 0 completion.new) }
    ensures rest { KeepsRest places.now completion.old completion.new }
{
    for attr in 0..narrow.relation(rel).len() {
        put_attribute(alloc, places, narrow, rel, AttrId(attr as u32), completion)?;
    }
    Ok(())
}

// Sets those of one attribute.
fn put_attribute(
    alloc: Global,
    places: &Places,
    narrow: &Completion,
    rel: RelId,
    attr: AttrId,
    completion: &mut Completion,
) -> Result<(), NoMemory>
    requires to_put { AreToPut places.now narrow.now }
    requires rel { rel.0 < length narrow.now }
    requires attr { attr.0 < length (slice_index_or narrow.now rel.0 []) }
    requires so_far { ArePutSoFar places.now narrow.now rel.0 attr.0 0 completion.old }
    ensures put { OnOk result (ArePutSoFar places.now narrow.now rel.0 (attr.0 + 1) 0 completion.new) }
    ensures rest { KeepsRest places.now completion.old completion.new }
{
    for place in 0..places.entities(rel).len() {
        put_list(alloc, places, narrow, rel, attr, place, completion)?;
    }
    Ok(())
}

// Sets the list of the entity at one place.
fn put_list(
    alloc: Global,
    places: &Places,
    narrow: &Completion,
    rel: RelId,
    attr: AttrId,
    place: usize,
    completion: &mut Completion,
) -> Result<(), NoMemory>
    requires to_put { AreToPut places.now narrow.now }
    requires rel { rel.0 < length narrow.now }
    requires attr { attr.0 < length (slice_index_or narrow.now rel.0 []) }
    requires place { place < length (entities_in places.now rel.0) }
    requires so_far { ArePutSoFar places.now narrow.now rel.0 attr.0 place completion.old }
    ensures put { OnOk result (ArePutSoFar places.now narrow.now rel.0 attr.0 (place + 1) completion.new) }
    ensures rest { KeepsRest places.now completion.old completion.new }
{
    let ent = places.entities(rel)[place];
    let list = narrow.attribute(rel, attr).get(place).as_slice();
    let list = rows_of(alloc, places.rows(rel), list)?;
    completion.set(rel, attr, ent, list);
    Ok(())
}

// The rows of the whole that these rows of a part are.
fn rows_of(alloc: Global, rows: &[RowId], list: &[RowId]) -> Result<RowList, NoMemory>
    requires { All (λ row. row.0 < length rows.now) list.now }
    ensures { IfOk result (λ all. all ≡ map (whole_row rows.now) list.now) }
{
    let mut all = RowList::new(alloc);
    for row in list {
        all.push(rows[row.0 as usize])?;
    }
    Ok(all)
}
