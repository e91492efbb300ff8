ghost use Rattle.std.specs.Prelude.{◌≡◌, ◌<◌, ◌^◌, Some, length, is_some};
ghost use Rattle.partial_orders.specs.Pairs.{entity_of};
ghost use Rattle.copy_functions.specs.Copies.{source_at};
ghost use Rattle.completion_check.specs.CopyTests.{are_of_one_entity, is_source_lower, breaks_copy};
ghost use Rattle.completion_check.specs.CopyBreaks.{IsPlaceAmong, IsCopyTrial};

use crate::relations::RelationPlaces;
use currency_base::{EntId, Row, RowId};
use spec_model::{CopyMap, Place};
use std::marker::Model;

/// A copy function, the rows of its target and its source, and their places: what rows of the target are
/// tried on.
#[derive(Drop)]
pub(crate) struct CopyTrial<'a> {
    pub copy: &'a CopyMap,
    pub target_rows: &'a [Row],
    pub source_rows: &'a [Row],
    pub target_places: &'a RelationPlaces,
    pub source_places: &'a RelationPlaces,
}

impl<'a> Model for CopyTrial<'a> {
    ghost use Rattle.completion_check.specs.CopyTests.{CopyTried};
    ghost use Rattle.completion_check.specs.CopyBreaks.{IsCopyTrial};

    ghost Value = { CopyTried };

    ghost view = { λ t. record {
      copy = t.copy.now;
      target_rows = t.target_rows.now;
      source_rows = t.source_rows.now;
      target_places = t.target_places.now;
      source_places = t.source_places.now;
    } };

    ghost invariant = { λ t. IsCopyTrial (record {
      copy = t.copy.now;
      target_rows = t.target_rows.now;
      source_rows =
          t.source_rows.now;
      target_places = t.target_places.now;
      source_places = t.source_places.now;
    }) };
}

impl CopyTrial<'_> {
    /// The places of the copy function.
    pub(crate) fn places(&self) -> &[Place]
        ensures value { result.now ≡ self.now.copy.places }
        ensures few { length self.now.copy.places < 2 ^ 32 }
        ensures facts { IsCopyTrial self.now }
    {
        self.copy.places().as_slice()
    }

    /// The rows of the target.
    pub(crate) fn target_rows(&self) -> &[Row]
        ensures { result.now ≡ self.now.target_rows }
    {
        self.target_rows
    }

    /// Is a row of the target mapped?
    pub(crate) fn is_mapped(&self, row: RowId) -> bool
        ensures { result ≡ is_some (source_at self.now.copy row) }
    {
        self.copy.source_of(row).is_some()
    }

    /// Do two rows of the target break a place?
    #[tactic(auto, unfolding(crate::specs::CopyTests::breaks_copy))]
    pub(crate) fn breaks(&self, place: &Place, first: RowId, second: RowId) -> bool
        requires { IsPlaceAmong (length self.now.target_places) (length self.now.source_places) place.now }
        ensures { result ≡ breaks_copy self.now place.now first second }
    {
        let Some(first_source) = self.copy.source_of(first) else {
            return false;
        };
        let Some(second_source) = self.copy.source_of(second) else {
            return false;
        };
        self.is_source_lower(place, first_source, second_source)
            && !self.target_places.is_lower(place.target, first, second)
    }

    // Are two source rows of one entity, and has the first the smaller place in the source attribute?
    fn is_source_lower(&self, place: &Place, first: RowId, second: RowId) -> bool
        requires place { place.now.source.0 < length self.now.source_places }
        requires first { first.0 < length self.now.source_rows }
        requires second { second.0 < length self.now.source_rows }
        ensures { result ≡ is_source_lower self.now place.now first second }
    {
        are_of_one_entity(self.source_rows, first, second)
            && self.source_places.is_lower(place.source, first, second)
    }
}

// Do two rows stand for one entity?
fn are_of_one_entity(rows: &[Row], first: RowId, second: RowId) -> bool
    requires first { first.0 < length rows.now }
    requires second { second.0 < length rows.now }
    ensures { result ≡ are_of_one_entity rows.now first second }
{
    entity_of(rows, first).0 == entity_of(rows, second).0
}

// The entity that a row stands for.
fn entity_of(rows: &[Row], row: RowId) -> EntId
    requires { row.0 < length rows.now }
    ensures { entity_of rows.now row.0 ≡ Some result.0 }
{
    rows[row.0 as usize].entity
}
