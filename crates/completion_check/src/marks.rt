ghost use Rattle.std.specs.Prelude.{◌≡◌, ℕ, ◌<◌, ◌≤◌, ◌↔◌, [], Some, IsTrue, length, slice_index, slice_index_or};
ghost use Rattle.std.specs.Bool.{OnTrue, OnFalse};
ghost use Rattle.partial_orders.specs.Pairs.{entity_of};
ghost use Rattle.spec_model.specs.Completion.{IsRanking};
ghost use Rattle.completion_check.specs.Marks.{AreMarksOf, AreMarked, IsClear, IsUnmarked, SameElsewhere};

use currency_base::{Row, RowId, RowList};

/// The first entity whose list is no ranking of its rows, or the number of lists. `places` is written
/// over.
pub(crate) fn first_unranked(places: &mut [usize], lists: &[RowList], rows: &[Row]) -> usize
    requires room { length rows.now ≤ length places.old }
    ensures within { result ≤ length lists.now }
    ensures ranked { (ent : ℕ) → ent < result → IsRanking rows.now ent (slice_index_or lists.now ent []) }
    ensures refused { result < length lists.now → IsRanking rows.now result (slice_index_or lists.now result []) → ⊥ }
    ensures marked { result ≡ length lists.now → AreMarked rows.now lists.now places.new }
{
    let bad = mark_lists(places, lists, rows);
    first_unmarked(places, rows, bad)
}

// Writes for each row its place in its entity's list, counted from 1, up to the first list that has a
// row of another entity or a row twice. Answers the entity of that list, or the number of lists.
fn mark_lists(places: &mut [usize], lists: &[RowList], rows: &[Row]) -> usize
    requires room { length rows.now ≤ length places.old }
    ensures within { result ≤ length lists.now }
    ensures marks { (ent : ℕ) → ent < result → AreMarksOf rows.now ent (slice_index_or lists.now ent []) places.new }
    ensures refused { result < length lists.now → IsRanking rows.now result (slice_index_or lists.now result []) → ⊥ }
{
    clear(places);
    for (ent, list) in lists.iter().enumerate() {
        if !mark_list(places, list.as_slice(), rows, ent) {
            return ent;
        }
    }
    lists.len()
}

// No row is marked.
fn clear(places: &mut [usize])
    ensures { IsClear places.new }
{
    places.fill(0);
}

// Writes the places of one entity's list, or answers false where it has a row of another entity or a
// row twice.
fn mark_list(places: &mut [usize], list: &[RowId], rows: &[Row], ent: usize) -> bool
    requires room { length rows.now ≤ length places.old }
    requires unmarked { IsUnmarked rows.now ent places.old }
    ensures marks { OnTrue result (AreMarksOf rows.now ent list.now places.new) }
    ensures refused { OnFalse result (IsRanking rows.now ent list.now → ⊥) }
    ensures elsewhere { SameElsewhere rows.now ent places.old places.new }
{
    for (place, row) in list.iter().enumerate() {
        if !is_unmarked(places, *row, rows, ent) {
            return false;
        }
        places[row.0 as usize] = place + 1;
    }
    true
}

// Is it a row of the entity that has no place yet?
fn is_unmarked(places: &[usize], row: RowId, rows: &[Row], ent: usize) -> bool
    requires room { length rows.now ≤ length places.now }
    ensures { IsTrue result ↔ ((entity_of rows.now row.0 ≡ Some ent) × (slice_index places.now row.0 ≡ 0)) }
{
    let at = row.0 as usize;
    at < rows.len() && rows[at].entity.0 as usize == ent && places[at] == 0
}

// The smallest entity below a bound that has a row with no place, or the bound.
fn first_unmarked(places: &[usize], rows: &[Row], bound: usize) -> usize
    requires room { length rows.now ≤ length places.now }
    ensures within { result ≤ bound }
    ensures marked { (row ent : ℕ) → entity_of rows.now row ≡ Some ent → ent < result → 0 < slice_index places.now row }
    ensures unmarked { result < bound → (row : ℕ) × (entity_of rows.now row ≡ Some result) × (slice_index places.now row ≡ 0) }
{
    let mut first = bound;
    for (at, row) in rows.iter().enumerate() {
        let ent = row.entity.0 as usize;
        if places[at] == 0 && ent < first {
            first = ent;
        }
    }
    first
}
