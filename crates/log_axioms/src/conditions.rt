ghost use Rattle.std.specs.Prelude.{◌≡◌, option_map};
ghost use Rattle.partial_orders.specs.Pairs.{entity_of};
ghost use Rattle.denial_rules.specs.Instances.{field_value};
ghost use Rattle.log_axioms.specs.Axioms.{is_attr, same_entity, are_two, same_value, of_one_entity};
ghost use Rattle.std.specs.Prelude.{Some};
ghost use Rattle.std.specs.List.{list_all};

use currency_base::{AttrId, Cmp, Row, RowId, Value};
use spec_model::Relation;

/// Does the relation have the attribute?
pub(crate) fn is_attr(relation: &Relation, attr: AttrId) -> bool
    ensures { result ≡ is_attr relation.now attr }
{
    (attr.0 as usize) < relation.attrs.len()
}

/// The entity of a row, if it is there.
pub(crate) fn entity_of(rows: &[Row], row: RowId) -> Option<u32>
    ensures { result ≡ entity_of rows.now row.0 }
{
    match rows.get(row.0 as usize) {
        Some(row) => Some(row.entity.0),
        None => None,
    }
}

/// Are both rows there, and of one entity?
pub(crate) fn same_entity(rows: &[Row], a: RowId, b: RowId) -> bool
    ensures { result ≡ same_entity rows.now a b }
{
    match (entity_of(rows, a), entity_of(rows, b)) {
        (Some(a), Some(b)) => a == b,
        _ => false,
    }
}

/// Are they two different rows of one entity?
pub(crate) fn are_two(rows: &[Row], a: RowId, b: RowId) -> bool
    ensures { result ≡ are_two rows.now a b }
{
    same_entity(rows, a, b) && !(a.0 == b.0)
}

/// Do both rows have the same value of an attribute?
pub(crate) fn same_value(rows: &[Row], attr: AttrId, a: RowId, b: RowId) -> bool
    ensures { result ≡ same_value rows.now attr.0 a b }
{
    match (value_of(rows, a, attr), value_of(rows, b, attr)) {
        (Some(a), Some(b)) => a.test(Cmp::Eq, b),
        _ => false,
    }
}

/// Are all these rows, of which there is one at least, of one entity?
#[tactic(auto, using(crate::proofs::Indexed::one_entity_by_first))]
pub(crate) fn of_one_entity(table: &[Row], rows: &[RowId]) -> bool
    ensures { result ≡ of_one_entity table.now rows.now }
{
    match rows.get(0) {
        Some(first) => all_of_entity(table, *first, rows),
        None => false,
    }
}

// Are all these rows of the entity of the first?
fn all_of_entity(table: &[Row], first: RowId, rows: &[RowId]) -> bool
    ensures { result ≡ list_all (same_entity table.now first) rows.now }
{
    rows.iter().all(|row| same_entity(table, first, *row))
}

// The value of an attribute of a row, if it is there.
fn value_of(rows: &[Row], row: RowId, attr: AttrId) -> Option<&Value>
    ensures { option_map (λ v. v.now) result ≡ field_value rows.now (Some row) attr.0 }
{
    match rows.get(row.0 as usize) {
        Some(row) => row.values.as_slice().get(attr.0 as usize),
        None => None,
    }
}
