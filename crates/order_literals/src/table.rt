ghost use Rattle.std.specs.Prelude.{◌≡◌, ◌<◌, ◌^◌, List, [], true, false, Some, is_some, length, slice_get, slice_index_or, IfOk};
ghost use Rattle.currency_base.specs.declared.ids.RowId.{RowId};
ghost use Rattle.spec_model.specs.Facts.{IsRelation};
ghost use Rattle.entity_lists.specs.Lists.{entities_of};
ghost use Rattle.pair_numbers.specs.Pairs.{pairs_of};
ghost use Rattle.order_literals.specs.Statements.{wanted_rows, wanted_values};
ghost use Rattle.order_literals.specs.Layout.{numbered_as};
ghost use Rattle.order_literals.specs.Held.{IsOwnName, IsRowPair};

use crate::rows::TableRows;
use crate::values::NamedValues;
use currency_base::{AttrId, NoMemory, RowId};
use entity_lists::EntityLists;
use pair_numbers::PairNumbers;
use spec_model::Relation;
use std::alloc::Global;
use std::marker::Model;

/// What is numbered of a relation. Contracts see the number of attributes, the rows of each entity, and the
/// names of the values where the current values are wanted.
#[derive(Drop)]
pub(crate) struct Table {
    attrs: u32,
    rows: TableRows,
    values: Option<NamedValues>,
}

impl Model for Table {
    ghost use Rattle.order_literals.specs.Numbers.{Numbered};
    ghost use Rattle.order_literals.specs.Held.{grouping_of, IsTable};

    ghost Value = { Numbered };

    ghost view = { λ t. record { attrs = t.attrs; rows = grouping_of t.rows; names = t.values } };

    ghost invariant = { λ t. IsTable t.attrs t.rows t.values };
}

impl Table {
    /// What is numbered of a relation, whose current values are wanted or not.
    pub(crate) fn new(alloc: Global, relation: &Relation, wanted: bool) -> Result<Table, NoMemory>
        requires facts { IsRelation relation.now }
        requires few { 0 < length relation.now.attrs → length (pairs_of (entities_of relation.now.rows)) < 2 ^ 32 }
        ensures { IfOk result (λ table. table ≡ numbered_as wanted relation.now) }
    {
        let attrs = relation.attrs.len() as u32;
        let lists = match EntityLists::new(
            alloc,
            relation.rows.as_slice(),
            relation.entities.len(),
        ) {
            Ok(lists) => lists,
            Err(fault) => return Err(fault),
        };
        let values = match values_of(alloc, relation, &lists, wanted) {
            Ok(values) => values,
            Err(fault) => return Err(fault),
        };
        let rows = match TableRows::new(alloc, lists, attrs) {
            Ok(rows) => rows,
            Err(fault) => return Err(fault),
        };
        Ok(Table {
            attrs,
            rows,
            values,
        })
    }

    /// How many attributes the relation has.
    pub(crate) fn attrs(&self) -> u32
        ensures { result ≡ self.now.attrs }
    {
        self.attrs
    }

    /// The rows of each entity.
    pub(crate) fn lists(&self) -> &EntityLists
        ensures { result.now ≡ self.now.rows }
    {
        self.rows.lists()
    }

    /// Are the current values of the relation wanted?
    pub(crate) fn is_wanted(&self) -> bool
        ensures { result ≡ is_some self.now.names }
    {
        self.values.is_some()
    }

    /// The numbers of the pairs of rows.
    pub(crate) fn pairs(&self) -> &PairNumbers
        requires { 0 < self.now.attrs }
        ensures { result.now ≡ self.now.rows }
    {
        self.rows.pairs()
    }

    /// How many rows there are whose standing last is numbered.
    #[tactic(auto, using(crate::proofs::Lengths::count_of_row_ids))]
    pub(crate) fn tops(&self) -> usize
        ensures { result ≡ length (wanted_rows self.now self.now.names) }
    {
        match &self.values {
            Some(_) => self.rows.lists().rows(),
            None => 0,
        }
    }

    /// How many values of an attribute there are whose being current is numbered.
    pub(crate) fn lasts(&self, attr: AttrId) -> usize
        requires { attr.0 < self.now.attrs }
        ensures { result ≡ length (wanted_values attr self.now.names) }
    {
        match &self.values {
            Some(values) => values.firsts(attr).len(),
            None => 0,
        }
    }

    /// The row that names the value with this number among those of an attribute.
    pub(crate) fn value(&self, attr: AttrId, number: u32) -> RowId
        requires attr { attr.0 < self.now.attrs }
        requires within { number < length (wanted_values attr self.now.names) }
        ensures { slice_get (wanted_values attr self.now.names) number ≡ Some result }
    {
        match &self.values {
            Some(values) => values.firsts(attr)[number as usize],
            None => unreachable!(),
        }
    }

    /// The row that names the value of a row.
    pub(crate) fn name(&self, attr: AttrId, row: RowId) -> RowId
        requires wanted { is_some self.now.names ≡ true }
        requires attr { attr.0 < self.now.attrs }
        requires row { row.0 < length self.now.rows.entities }
        ensures { (names : List (List RowId)) → self.now.names ≡ Some names
            → slice_get (slice_index_or names attr.0 []) row.0 ≡ Some result }
    {
        match &self.values {
            Some(values) => values.name(attr, row),
            None => unreachable!(),
        }
    }

    /// The number of the value that a row names among those of an attribute. Takes logarithmic time.
    pub(crate) fn number(&self, attr: AttrId, row: RowId) -> usize
        requires wanted { is_some self.now.names ≡ true }
        requires attr { attr.0 < self.now.attrs }
        requires named { (names : List (List RowId)) → self.now.names ≡ Some names
            → slice_get (slice_index_or names attr.0 []) row.0 ≡ Some row }
        ensures { slice_get (wanted_values attr self.now.names) result ≡ Some row }
    {
        match &self.values {
            Some(values) => values.number(attr, row),
            None => unreachable!(),
        }
    }

    /// Is it a row that names its own value of an attribute?
    pub(crate) fn is_own_name(&self, attr: AttrId, row: RowId) -> bool
        requires { attr.0 < self.now.attrs }
        ensures own { result ≡ true → IsOwnName self.now attr.0 row }
        ensures within { result ≡ true → row.0 < length self.now.rows.entities }
        ensures no { result ≡ false → IsOwnName self.now attr.0 row → ⊥ }
    {
        let Some(values) = &self.values else {
            return false;
        };
        if row.0 as usize >= self.rows.lists().rows() {
            return false;
        }
        values.name(attr, row).0 == row.0
    }

    /// Are these two different rows of one entity?
    pub(crate) fn is_pair(&self, first: RowId, second: RowId) -> bool
        ensures yes { result ≡ true → IsRowPair self.now.rows.entities first.0 second.0 }
        ensures no { result ≡ false → IsRowPair self.now.rows.entities first.0 second.0 → ⊥ }
    {
        is_pair(self.rows.lists(), first, second)
    }
}

/// The names of the values of a relation, if these are wanted.
fn values_of(
    alloc: Global,
    relation: &Relation,
    lists: &EntityLists,
    wanted: bool,
) -> Result<Option<NamedValues>, NoMemory>
    requires facts { IsRelation relation.now }
    requires count { lists.now.count ≡ length relation.now.entities }
    requires entities { lists.now.entities ≡ entities_of relation.now.rows }
    ensures { IfOk result (λ values. values ≡ (numbered_as wanted relation.now).names) }
{
    if !wanted {
        return Ok(None);
    }
    match NamedValues::new(alloc, relation, lists) {
        Ok(values) => Ok(Some(values)),
        Err(fault) => Err(fault),
    }
}

/// Are these two different rows of one entity?
fn is_pair(lists: &EntityLists, first: RowId, second: RowId) -> bool
    ensures yes { result ≡ true → IsRowPair lists.now.entities first.0 second.0 }
    ensures no { result ≡ false → IsRowPair lists.now.entities first.0 second.0 → ⊥ }
{
    if first.0 as usize >= lists.rows() {
        return false;
    }
    if second.0 as usize >= lists.rows() {
        return false;
    }
    if first.0 == second.0 {
        return false;
    }
    lists.entity(first).0 == lists.entity(second).0
}
