ghost use Rattle.std.specs.Prelude.{◌≡◌, ℕ, ◌<◌, ◌≤◌, [], length, slice_index_or, IfSome, IfNone};
ghost use Rattle.spec_model.specs.Facts.{IsRelation};
ghost use Rattle.completion_check.specs.Relations.{FitsRelation, IsRanked, AreAllMarked, IsFirstUnrankedOf, AreInOrder, IsFirstOutOfOrder};
ghost use Rattle.completion_check.specs.Room.{HasPlaces};
ghost use Rattle.completion_check.specs.CopyTests.{is_lower};

use crate::row_places::Places;
use currency_base::{AttrId, EntId, Pair, RowId};
use spec_model::{AttributeRankings, Relation};
use std::marker::Model;

/// The attribute and the entity of a list.
#[derive(Clone, Copy)]
pub(crate) struct ListId {
    pub attr: AttrId,
    pub ent: EntId,
}

/// The places of a relation's rows, one list of them per attribute.
#[derive(Drop)]
pub(crate) struct RelationPlaces {
    attrs: Vec<Places>,
}

impl Model for RelationPlaces {
    ghost use Rattle.std.specs.Prelude.{List, ℕ};

    ghost Value = { List (List ℕ) };

    ghost view = { λ p. p.attrs.items };
}

impl RelationPlaces {
    pub(crate) fn new(attrs: Vec<Places>) -> RelationPlaces
        ensures { result ≡ attrs.items }
    {
        RelationPlaces { attrs }
    }

    /// The places in an attribute.
    pub(crate) fn attr(&self, attr: AttrId) -> &Places
        requires { attr.0 < length self.now }
        ensures { result.now ≡ slice_index_or self.now attr.0 [] }
    {
        &self.attrs[attr.0 as usize]
    }

    /// Has the first of two rows the smaller place in an attribute?
    pub(crate) fn is_lower(&self, attr: AttrId, first: RowId, second: RowId) -> bool
        requires attr { attr.0 < length self.now }
        requires first { first.0 < length (slice_index_or self.now attr.0 []) }
        requires second { second.0 < length (slice_index_or self.now attr.0 []) }
        ensures { result ≡ is_lower self.now attr.0 first second }
    {
        let places = self.attr(attr);
        places.of(first) < places.of(second)
    }

    /// Writes the places of a relation's rows in its lists, up to the first list that is no ranking, which
    /// it answers.
    pub(crate) fn mark(
        &mut self,
        relation: &Relation,
        rankings: &[AttributeRankings],
    ) -> Option<ListId>
        requires room { HasPlaces relation.now self.old }
        requires facts { IsRelation relation.now }
        requires shape { FitsRelation relation.now rankings.now }
        ensures room_stays { HasPlaces relation.now self.new }
        ensures none { IfNone result (IsRanked relation.now rankings.now) }
        ensures marked { IfNone result (AreAllMarked relation.now rankings.now self.new) }
        ensures some { IfSome result (λ p. IsFirstUnrankedOf relation.now rankings.now p.attr.0 p.ent.0) }
    {
        let rows = relation.rows.as_slice();
        for (attr, lists) in rankings.iter().enumerate() {
            let ent = self.attrs[attr].mark(lists.as_slice(), rows);
            if ent < lists.len() {
                return Some(ListId {
                    attr: AttrId(attr as u32),
                    ent: EntId(ent as u32),
                });
            }
        }
        None
    }

    /// The first given pair of a relation whose earlier row has not the smaller place.
    pub(crate) fn broken(&self, relation: &Relation) -> Option<Pair>
        requires room { HasPlaces relation.now self.now }
        requires facts { IsRelation relation.now }
        ensures none { IfNone result (AreInOrder self.now relation.now.given) }
        ensures some { IfSome result (IsFirstOutOfOrder self.now relation.now.given) }
    {
        for pair in relation.given.iter() {
            let places = self.attr(pair.attr);
            if places.of(pair.later) <= places.of(pair.earlier) {
                return Some(*pair);
            }
        }
        None
    }
}
