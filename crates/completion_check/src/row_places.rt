ghost use Rattle.std.specs.Prelude.{◌≡◌, ◌<◌, ◌≤◌, ℕ, [], length, slice_index, slice_index_or};
ghost use Rattle.spec_model.specs.Completion.{IsRanking};
ghost use Rattle.completion_check.specs.Marks.{AreMarked};

use crate::marks::first_unranked;
use currency_base::{Row, RowId, RowList};
use std::alloc::Global;
use std::marker::Model;

/// For each row of a relation, 0 or its place in its entity's list of one attribute, counted from 1.
/// Contracts see the list of the places.
#[derive(Drop)]
pub(crate) struct Places {
    places: Vec<usize>,
}

impl Model for Places {
    ghost use Rattle.std.specs.Prelude.{List, ℕ};

    ghost Value = { List ℕ };

    ghost view = { λ p. p.places.items };
}

impl Places {
    /// No row has a place.
    pub(crate) fn new(places: Vec<usize>) -> Places
        ensures { result ≡ places.items }
    {
        Places { places }
    }

    /// Writes each row's place in the lists of one attribute, up to the first list that is no ranking of
    /// its entity's rows. Answers the entity of that list, or the number of lists.
    pub(crate) fn mark(&mut self, lists: &[RowList], rows: &[Row]) -> usize
        requires room { length rows.now ≡ length self.old }
        ensures room_stays { length self.new ≡ length self.old }
        ensures within { result ≤ length lists.now }
        ensures ranked { (ent : ℕ) → ent < result → IsRanking rows.now ent (slice_index_or lists.now ent []) }
        ensures refused { result < length lists.now → IsRanking rows.now result (slice_index_or lists.now result []) → ⊥ }
        ensures marked { result ≡ length lists.now → AreMarked rows.now lists.now self.new }
    {
        first_unranked(self.places.as_mut_slice(), lists, rows)
    }

    /// The place of a row.
    pub(crate) fn of(&self, row: RowId) -> usize
        requires { row.0 < length self.now }
        ensures { result ≡ slice_index self.now row.0 }
    {
        self.places[row.0 as usize]
    }
}
