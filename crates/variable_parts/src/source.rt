ghost use Rattle.std.specs.Prelude.{◌≡◌, ◌<◌, ◌+◌, ◌^◌, ◌==◌, Some, length, slice_get};
ghost use Rattle.spec_model.specs.declared.relation.Relation.{Relation};
ghost use Rattle.entity_lists.specs.Lists.{entities_of};
ghost use Rattle.value_names.specs.Names.{name_of};
ghost use Rattle.order_literals.specs.Numbers.{is_wanted};
ghost use Rattle.order_literals.specs.Statements.{statements_of};
ghost use Rattle.variable_parts.specs.Told.{IsWantedRow, laters, numbers_in, row_key, rows_in};

use currency_base::{AttrId, RelId, RowId};
use entity_ties::Ties;
use order_literals::{Numbering, Wanted};
use spec_model::Specification;
use std::marker::Model;

/// A specification, the numbers of the statements on it, and its smallest closed parts.
#[derive(Drop)]
pub(crate) struct Source<'a> {
    pub spec: &'a Specification,
    pub wanted: &'a Wanted,
    pub numbering: &'a Numbering,
    pub ties: &'a Ties,
    /// How many parts there are.
    pub count: u32,
}

impl<'a> Model for Source<'a> {
    ghost use Rattle.variable_parts.specs.Told.{Divided, IsSource};

    ghost Value = { Divided };

    ghost view = { λ s. record { spec = s.spec.now; wanted = s.wanted.now; ties = s.ties.now } };

    ghost invariant = { λ s. IsSource s.numbering.now s.count
        (record { spec = s.spec.now; wanted = s.wanted.now; ties = s.ties.now }) };
}

impl Source<'_> {
    /// How many statements are numbered.
    pub(crate) fn vars(&self) -> usize
        ensures value { result ≡ length (statements_of (numbers_in self.now)) }
        ensures few { result < 2 ^ 31 }
    {
        self.numbering.vars() as usize
    }

    /// How many answers are numbered.
    pub(crate) fn answers(&self) -> u32
        ensures { result ≡ self.now.wanted.answers }
    {
        self.wanted.answers
    }

    /// How many parts there are.
    pub(crate) fn parts(&self) -> u32
        ensures value { result ≡ self.now.ties.count }
        ensures few { result + 1 < 2 ^ 32 }
    {
        self.count
    }

    /// How many relations there are.
    pub(crate) fn relations(&self) -> usize
        ensures value { result ≡ length self.now.spec.relations }
        ensures few { result + 1 < 2 ^ 32 }
    {
        self.spec.relations().len()
    }

    /// How many attributes a relation has.
    pub(crate) fn attrs(&self, rel: RelId) -> usize
        requires { rel.0 < length self.now.spec.relations }
        ensures value { (r : Relation) → slice_get self.now.spec.relations rel.0 ≡ Some r → result ≡ length r.attrs }
        ensures few { result + 1 < 2 ^ 32 }
    {
        self.spec.relations()[rel.0 as usize].attrs.len()
    }

    /// How many rows a relation has.
    pub(crate) fn rows(&self, rel: RelId) -> usize
        requires { rel.0 < length self.now.spec.relations }
        ensures value { result ≡ length (rows_in self.now rel) }
        ensures few { result + 1 < 2 ^ 32 }
    {
        self.spec.relations()[rel.0 as usize].rows.len()
    }

    /// The part of a row's entity.
    pub(crate) fn part(&self, rel: RelId, row: RowId) -> u32
        requires { row.0 < length (rows_in self.now rel) }
        ensures { result ≡ row_key self.now rel row }
    {
        self.ties
            .part_of(rel, self.numbering.lists(rel).entity(row))
    }

    /// How many rows of its entity come after a row.
    pub(crate) fn laters(&self, rel: RelId, row: RowId) -> usize
        requires { row.0 < length (rows_in self.now rel) }
        ensures value { result ≡ laters (entities_of (rows_in self.now rel)) row.0 }
        ensures few { result < 2 ^ 32 }
    {
        let _relations = self.spec.relations();
        let lists = self.numbering.lists(rel);
        let rows = lists.of_entity(lists.entity(row));
        rows.len() - lists.place(row) - 1
    }

    /// Are the current values of a relation wanted?
    pub(crate) fn is_wanted(&self, rel: RelId) -> bool
        requires { rel.0 < length self.now.spec.relations }
        ensures { result ≡ is_wanted self.now.wanted.currents rel.0 }
    {
        self.numbering.is_wanted(rel)
    }

    /// Does a row of a wanted relation name its value?
    pub(crate) fn is_name(&self, rel: RelId, attr: AttrId, row: RowId) -> bool
        requires { IsWantedRow self.now rel attr row }
        ensures { result ≡ ((name_of (rows_in self.now rel) attr.0 row).0 == row.0) }
    {
        self.numbering.name(rel, attr, row).0 == row.0
    }
}
