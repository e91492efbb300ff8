// Counting the instances of a copy function that are of one row.

ghost use Rattle.std.specs.Prelude.{◌≡◌, ◌*◌, ◌-◌, ◌^◌, IfSome, min, slice_get};
ghost use Rattle.std.specs.List.{count_by};
ghost use Rattle.spec_limits.specs.Left.{AreEntityLists};
ghost use Rattle.spec_edits.specs.Edits.{AreRowsAt};
ghost use Rattle.spec_edits.specs.Partners.{is_partner, row_instances};

use currency_base::{CopyId, Row, RowId};
use spec_limits::{EntityLists, are_of_one_entity};
use spec_model::{CopyMap, Specification};

/// How many instances the copy function at a place has of a target row, where that is mapped to this source row, as far as 64
/// bits hold that. Takes time in proportion to the rows of the row's entity.
pub(crate) fn row_instances(
    spec: &Specification,
    lists: &EntityLists,
    copy: CopyId,
    target: RowId,
    source: RowId,
) -> u64
    requires lists { AreEntityLists spec.now.relations lists.now }
    requires rows { AreRowsAt spec.now copy.0 target source }
    ensures { IfSome (slice_get spec.now.copies copy.0)
        (λ c. result ≡ min (row_instances spec.now.relations c target source) (2 ^ 64 - 1)) }
{
    let map = &spec.copies()[copy.0 as usize];
    let target_rows = &spec.relations()[map.target().0 as usize].rows;
    let source_rows = &spec.relations()[map.source().0 as usize].rows;
    let entity = target_rows.row(target).entity;
    let others = lists
        .get(map.target().0 as usize)
        .get(entity.0 as usize)
        .as_slice();
    let found = partners(
        map,
        target_rows.as_slice(),
        source_rows.as_slice(),
        target,
        source,
        others,
    );
    found.saturating_mul(2 * map.places().len() as u64)
}

/// How many of these rows are partners of a row that is mapped to this source row.
fn partners(
    copy: &CopyMap,
    target_rows: &[Row],
    source_rows: &[Row],
    first: RowId,
    source: RowId,
    others: &[RowId],
) -> u64
    ensures { result ≡ count_by (is_partner copy.now target_rows.now source_rows.now first source) others.now }
{
    others
        .iter()
        .filter(|second| is_partner(copy, target_rows, source_rows, first, source, **second))
        .count() as u64
}

/// Are a row that is mapped to this source row and a second one an instance of the copy function?
fn is_partner(
    copy: &CopyMap,
    target_rows: &[Row],
    source_rows: &[Row],
    first: RowId,
    source: RowId,
    second: RowId,
) -> bool
    ensures { result ≡ is_partner copy.now target_rows.now source_rows.now first source second }
{
    if !are_of_one_entity(target_rows, first, second) {
        return false;
    }
    let Some(second_source) = copy.source_of(second) else {
        return false;
    };
    are_of_one_entity(source_rows, source, second_source)
}
