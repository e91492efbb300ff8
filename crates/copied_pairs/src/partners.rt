ghost use Rattle.std.specs.Prelude.{◌≡◌, ◌<◌, length};
ghost use Rattle.copy_functions.specs.Copies.{source_at};
ghost use Rattle.partial_orders.specs.Pairs.{entity_of};
ghost use Rattle.copied_pairs.specs.Listing.{same_entity, goes_with, HasSources};

use currency_base::{RowId, Rows};
use spec_model::CopyMap;

/// A row goes with a row that was copied from `from`: it was copied from another row, of the same entity as
/// `from`. Rows with different sources are different, so no row goes with itself.
pub(crate) fn goes_with(copy: &CopyMap, source: &Rows, from: RowId, second: RowId) -> bool
    requires sources { HasSources copy.now source.now }
    requires from { from.0 < length source.now }
    ensures { result ≡ goes_with source.now from (source_at copy.now second) }
{
    match copy.source_of(second) {
        Some(other) => other.0 != from.0 && are_of_one_entity(source, from, other),
        None => false,
    }
}

// Two rows stand for one entity.
fn are_of_one_entity(rows: &Rows, first: RowId, second: RowId) -> bool
    requires first { first.0 < length rows.now }
    requires second { second.0 < length rows.now }
    ensures { result ≡ same_entity (entity_of rows.now first.0) (entity_of rows.now second.0) }
{
    rows.row(first).entity.0 == rows.row(second).entity.0
}
