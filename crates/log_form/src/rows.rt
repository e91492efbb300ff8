ghost use Rattle.std.specs.Prelude.{◌≡◌, Some, length, option_map};
ghost use Rattle.std.specs.List.{filter};
ghost use Rattle.partial_orders.specs.Pairs.{entity_of};
ghost use Rattle.denial_rules.specs.Instances.{field_value};
ghost use Rattle.spec_model.specs.Facts.{IsRelation};
ghost use Rattle.entity_rows.specs.Members.{AreEntityRows};
ghost use Rattle.log_form.specs.Form.{same_value, is_first, is_first_alike, is_row, is_one};

use currency_base::{AttrId, Cmp, Row, RowId, Value};
use entity_rows::EntityRows;
use spec_model::Relation;

/// Is there such a row?
pub(crate) fn is_row(rows: &[Row], row: RowId) -> bool
    ensures { result ≡ is_row rows.now row }
{
    (row.0 as usize) < rows.len()
}

/// Are both rows there, and of one entity?
pub(crate) fn are_of_one(rows: &[Row], a: RowId, b: RowId) -> bool
    ensures { result ≡ is_one (entity_of rows.now a.0) (entity_of rows.now b.0) }
{
    match (entity_of(rows, a), entity_of(rows, b)) {
        (Some(a), Some(b)) => a == b,
        _ => false,
    }
}

/// Is the row the first one of its entity that has its value? One that is not there is not judged. Looks at
/// the rows of the entity up to the first with the value.
pub(crate) fn is_first_alike(
    relation: &Relation,
    members: &EntityRows,
    attr: AttrId,
    row: RowId,
) -> bool
    requires facts { IsRelation relation.now }
    requires members { AreEntityRows relation.now.rows (length relation.now.entities) members.now }
    ensures { result ≡ is_first_alike relation.now.rows attr.0 row }
{
    let rows = relation.rows.as_slice();
    match entity_of(rows, row) {
        Some(ent) => is_first_among(rows, attr, row, members.get(ent as usize).as_slice()),
        None => true,
    }
}

// Is the row the first of these that has its value?
fn is_first_among(rows: &[Row], attr: AttrId, row: RowId, members: &[RowId]) -> bool
    ensures { result ≡ is_first row (filter (same_value rows.now attr.0 row) members.now) }
{
    for other in members {
        if same_value(rows, attr, row, *other) {
            return other.0 == row.0;
        }
    }
    false
}

// Do both rows have a value of the attribute, and is it one value?
fn same_value(rows: &[Row], attr: AttrId, a: RowId, b: RowId) -> bool
    ensures { result ≡ same_value rows.now attr.0 a b }
{
    match (value_of(rows, a, attr), value_of(rows, b, attr)) {
        (Some(a), Some(b)) => a.test(Cmp::Eq, b),
        _ => false,
    }
}

// The value of an attribute of a row, if it is there.
fn value_of(rows: &[Row], row: RowId, attr: AttrId) -> Option<&Value>
    ensures { option_map (λ v. v.now) result ≡ field_value rows.now (Some row) attr.0 }
{
    match rows.get(row.0 as usize) {
        Some(row) => row.values.as_slice().get(attr.0 as usize),
        None => None,
    }
}

// The entity of a row, if it is there.
fn entity_of(rows: &[Row], row: RowId) -> Option<u32>
    ensures { result ≡ entity_of rows.now row.0 }
{
    match rows.get(row.0 as usize) {
        Some(row) => Some(row.entity.0),
        None => None,
    }
}
