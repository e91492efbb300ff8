// Counting the instances of copy functions, up to a bound.

ghost use Rattle.std.specs.Prelude.{◌≡◌, ◌<◌, ◌*◌, ◌^◌, length, All};
ghost use Rattle.std.specs.List.{count_by, sum_by};
ghost use Rattle.entity_rows.specs.Members.{AreEntityRows};
ghost use Rattle.spec_limits.specs.Instances.{are_of_one_entity, copy_instances, copy_pairs, is_copy_instance};
ghost use Rattle.spec_limits.specs.Left.{left_of, AreEntityLists};

use crate::instances::EntityLists;
use crate::left::left_after;
use currency_base::{Row, RowId};
use entity_rows::EntityRows;
use spec_model::{CopyMap, Specification};

/// What the instances of copy functions leave of a bound.
pub(crate) fn left_by_copies(
    mut left: u32,
    spec: &Specification,
    lists: &EntityLists,
) -> Option<u32>
    requires { AreEntityLists spec.now.relations lists.now }
    ensures { result ≡ left_of left (sum_by (copy_instances spec.now.relations) spec.now.copies) }
{
    let relations = spec.relations();
    for copy in spec.copies() {
        let target = relations[copy.target().0 as usize].rows.as_slice();
        let source = relations[copy.source().0 as usize].rows.as_slice();
        let entities = lists.get(copy.target().0 as usize);
        let Some(rest) = left_by_copy(left, copy, target, source, entities) else {
            return None;
        };
        left = rest;
    }
    Some(left)
}

/// What the instances of a copy function leave of a bound. The entities are those of the target.
fn left_by_copy(
    mut left: u32,
    copy: &CopyMap,
    target: &[Row],
    source: &[Row],
    entities: &EntityRows,
) -> Option<u32>
    requires few { length target.now < 2 ^ 32 }
    requires lists { AreEntityRows target.now (length entities.now) entities.now }
    requires within { All (λ row. row.entity.0 < length entities.now) target.now }
    ensures { result ≡ left_of left (length copy.now.places * copy_pairs copy.now target.now source.now) }
{
    for (at, row) in target.iter().enumerate() {
        let others = entities.get(row.entity.0 as usize).as_slice();
        let Some(rest) = left_by_first(left, copy, target, source, RowId(at as u32), others) else {
            return None;
        };
        left = rest;
    }
    Some(left)
}

/// What the instances of a copy function leave of a bound whose first row is this one, and whose second
/// is one of these others.
fn left_by_first(
    left: u32,
    copy: &CopyMap,
    target: &[Row],
    source: &[Row],
    first: RowId,
    others: &[RowId],
) -> Option<u32>
    ensures { result ≡ left_of left
        (length copy.now.places * count_by (is_copy_instance copy.now target.now source.now first) others.now) }
{
    let partners = copy_partners(copy, target, source, first, others);
    let places = copy.places().len() as u64;
    left_after(left, partners.saturating_mul(places))
}

/// With how many of these rows a row is an instance of a copy function, as the first of the two. The rows are those
/// of its target and of its source relation.
pub fn copy_partners(
    copy: &CopyMap,
    target: &[Row],
    source: &[Row],
    first: RowId,
    others: &[RowId],
) -> u64
    ensures { result ≡ count_by (is_copy_instance copy.now target.now source.now first) others.now }
{
    others
        .iter()
        .filter(|second| is_copy_instance(copy, target, source, first, **second))
        .count() as u64
}

/// Are two rows of the target an instance of a copy function?
fn is_copy_instance(
    copy: &CopyMap,
    target: &[Row],
    source: &[Row],
    first: RowId,
    second: RowId,
) -> bool
    ensures { result ≡ is_copy_instance copy.now target.now source.now first second }
{
    if !are_of_one_entity(target, first, second) {
        return false;
    }
    let Some(first_source) = copy.source_of(first) else {
        return false;
    };
    let Some(second_source) = copy.source_of(second) else {
        return false;
    };
    are_of_one_entity(source, first_source, second_source)
}

/// Are these two different rows of one entity?
pub fn are_of_one_entity(rows: &[Row], first: RowId, second: RowId) -> bool
    ensures { result ≡ are_of_one_entity rows.now first second }
{
    if first.0 == second.0 {
        return false;
    }
    let Some(a) = rows.get(first.0 as usize) else {
        return false;
    };
    let Some(b) = rows.get(second.0 as usize) else {
        return false;
    };
    a.entity.0 == b.entity.0
}
