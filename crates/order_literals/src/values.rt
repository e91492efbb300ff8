ghost use Rattle.std.specs.Prelude.{◌≡◌, ◌<◌, [], Some, length, slice_get, slice_index_or, IfOk, nat_lt};
ghost use Rattle.spec_model.specs.Facts.{IsRelation};
ghost use Rattle.entity_lists.specs.Lists.{entities_of};
ghost use Rattle.value_names.specs.Names.{firsts_of};
ghost use Rattle.order_literals.specs.Numbers.{value_names_of};
ghost use Rattle.order_literals.specs.Held.{IsAmong};

use currency_base::{AttrId, NoMemory, RowId};
use entity_lists::EntityLists;
use flat_lists::FlatLists;
use spec_model::Relation;
use std::alloc::Global;
use std::marker::Model;
use value_names::{ValueNames, first_rows, value_names};

/// The names of a relation's values, attribute by attribute, and the rows that name values. Contracts see
/// the names.
#[derive(Drop)]
pub(crate) struct NamedValues {
    names: ValueNames,
    firsts: FlatLists<RowId>,
}

impl Model for NamedValues {
    ghost use Rattle.std.specs.Prelude.{◌≡◌, List, map};
    ghost use Rattle.currency_base.specs.declared.ids.RowId.{RowId};
    ghost use Rattle.value_names.specs.Names.{firsts_of};

    ghost Value = { List (List RowId) };

    ghost view = { λ v. v.names };

    ghost invariant = { λ v. v.firsts ≡ map firsts_of v.names };
}

impl NamedValues {
    /// The names of the values of a relation.
    pub(crate) fn new(
        alloc: Global,
        relation: &Relation,
        lists: &EntityLists,
    ) -> Result<NamedValues, NoMemory>
        requires facts { IsRelation relation.now }
        requires count { lists.now.count ≡ length relation.now.entities }
        requires entities { lists.now.entities ≡ entities_of relation.now.rows }
        ensures { IfOk result (λ values. values ≡ value_names_of relation.now) }
    {
        let names = match value_names(alloc, relation, lists) {
            Ok(names) => names,
            Err(fault) => return Err(fault),
        };
        let firsts = match first_rows(alloc, &names) {
            Ok(firsts) => firsts,
            Err(fault) => return Err(fault),
        };
        Ok(NamedValues { names, firsts })
    }

    /// The row that names the value of a row.
    pub(crate) fn name(&self, attr: AttrId, row: RowId) -> RowId
        requires attr { attr.0 < length self.now }
        requires row { row.0 < length (slice_index_or self.now attr.0 []) }
        ensures { slice_get (slice_index_or self.now attr.0 []) row.0 ≡ Some result }
    {
        self.names.get(attr.0 as usize)[row.0 as usize]
    }

    /// The rows that name values of an attribute, ascending.
    pub(crate) fn firsts(&self, attr: AttrId) -> &[RowId]
        requires { attr.0 < length self.now }
        ensures { result.now ≡ firsts_of (slice_index_or self.now attr.0 []) }
    {
        self.firsts.get(attr.0 as usize)
    }

    /// The place, among the rows that name values of an attribute, of one of them. Takes logarithmic time.
    pub(crate) fn number(&self, attr: AttrId, row: RowId) -> usize
        requires attr { attr.0 < length self.now }
        requires named { slice_get (slice_index_or self.now attr.0 []) row.0 ≡ Some row }
        ensures { slice_get (firsts_of (slice_index_or self.now attr.0 [])) result ≡ Some row }
    {
        place_among(self.firsts(attr), row)
    }
}

/// The place of a row among rows whose ids rise.
fn place_among(rows: &[RowId], row: RowId) -> usize
    requires { IsAmong rows.now row }
    ensures { slice_get rows.now result ≡ Some row }
{
    rows.partition_point(
        |other: &RowId| -> bool
            ensures { result ≡ nat_lt other.now.0 row.0 }
        { other.0 < row.0 },
    )
}
