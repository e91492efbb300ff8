ghost use Rattle.std.specs.Prelude.{◌≡◌, ◌<◌, Some, length, slice_get};
ghost use Rattle.denial_rules.specs.Instances.{field_value};
ghost use Rattle.spec_model.specs.Pairs.{entity_of};
ghost use Rattle.spec_model.specs.Completion.{IsCompletion, ranking_of};
ghost use Rattle.spec_model.specs.Current.{current_value, last_row};
ghost use Rattle.spec_model.specs.declared.relation.Relation.{Relation};
ghost use Rattle.current_tuples.specs.Places.{IsPlaceOf, IsReadable};

use currency_base::{AttrId, EntId, RelId, RowId, Rows, Value};
use spec_model::{Completion, Specification};

/// The current value of an attribute of an entity: that of the last row of its list. Takes no memory.
pub fn last<'a>(
    spec: &'a Specification,
    completion: &Completion,
    rel: RelId,
    attr: AttrId,
    ent: EntId,
) -> &'a Value
    requires completion { IsCompletion spec.now.relations completion.now }
    requires place { IsPlaceOf spec.now.relations rel.0 attr.0 ent.0 }
    ensures { (r : Relation) → slice_get spec.now.relations rel.0 ≡ Some r
        → current_value completion.now rel.0 r.rows attr.0 ent.0 ≡ Some result.now }
{
    let relation = &spec.relations()[rel.0 as usize];
    last_value(&relation.rows, completion.ranking(rel, attr, ent), attr)
}

/// The row that stands last in the list of an attribute of an entity, which is a row of this entity. Takes no
/// memory.
pub fn last_row(
    spec: &Specification,
    completion: &Completion,
    rel: RelId,
    attr: AttrId,
    ent: EntId,
) -> RowId
    requires completion { IsCompletion spec.now.relations completion.now }
    requires place { IsPlaceOf spec.now.relations rel.0 attr.0 ent.0 }
    ensures last { last_row (ranking_of completion.now rel.0 attr.0 ent.0) ≡ Some result }
    ensures of_entity { (r : Relation) → slice_get spec.now.relations rel.0 ≡ Some r → entity_of r.rows result.0 ≡ Some ent.0 }
    ensures within { (r : Relation) → slice_get spec.now.relations rel.0 ≡ Some r → result.0 < length r.rows }
{
    let _ = spec.relations().len();
    end_of(completion.ranking(rel, attr, ent))
}

// The value of an attribute in the last row of a list.
fn last_value<'a>(rows: &'a Rows, list: &[RowId], attr: AttrId) -> &'a Value
    requires { IsReadable rows.now list.now attr.0 }
    ensures { field_value rows.now (last_row list.now) attr.0 ≡ Some result.now }
{
    rows.row(end_of(list)).values.get(attr.0 as usize)
}

// The last row of a list.
fn end_of(list: &[RowId]) -> RowId
    requires { 0 < length list.now }
    ensures { last_row list.now ≡ Some result }
{
    list[list.len() - 1]
}
