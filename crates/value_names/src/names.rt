ghost use Rattle.std.specs.Prelude.{◌≡◌, ◌<◌, All, Some, map, length, IfOk};
ghost use Rattle.std.specs.List.{range_with_len};
ghost use Rattle.denial_rules.specs.Instances.{field_value};
ghost use Rattle.partial_orders.specs.Pairs.{entity_of};
ghost use Rattle.spec_model.specs.Facts.{IsRelation};
ghost use Rattle.entity_lists.specs.Lists.{entities_of};
ghost use Rattle.value_names.specs.Names.{are_alike, name_of, names_of, firsts_of};

use currency_base::{Cmp, ItemList, NoMemory, RowId, Rows, Value};
use entity_lists::EntityLists;
use flat_lists::FlatLists;
use spec_model::Relation;
use std::alloc::Global;

/// For each attribute of a relation, of each row the row that names its value: the first row of its entity
/// that has it.
pub type ValueNames = FlatLists<RowId>;

/// The names of the values of a relation, attribute by attribute. Of each row the rows before it of its
/// entity are looked at, up to the first with its value, so this takes time in proportion to the pairs of rows of
/// one entity in each attribute.
pub fn value_names(
    alloc: Global,
    relation: &Relation,
    lists: &EntityLists,
) -> Result<ValueNames, NoMemory>
    requires facts { IsRelation relation.now }
    requires count { lists.now.count ≡ length relation.now.entities }
    requires entities { lists.now.entities ≡ entities_of relation.now.rows }
    ensures { IfOk result (λ names. names ≡ map (names_of relation.now.rows) (range_with_len 0 (length relation.now.attrs))) }
{
    let mut names = ValueNames::new(alloc);
    for attr in 0..relation.attrs.len() {
        let list = attribute_names(alloc, &relation.rows, lists, attr)?;
        names.push_list(list)?;
    }
    Ok(names)
}

/// The rows that name values, attribute by attribute, ascending.
pub fn first_rows(alloc: Global, names: &ValueNames) -> Result<FlatLists<RowId>, NoMemory>
    ensures { IfOk result (λ firsts. firsts ≡ map firsts_of names.now) }
{
    let mut firsts = FlatLists::new(alloc);
    for attr in 0..names.len() {
        let list = own_names(alloc, names.get(attr))?;
        firsts.push_list(list)?;
    }
    Ok(firsts)
}

// Of each row the row that names its value of an attribute.
pub(crate) fn attribute_names(
    alloc: Global,
    rows: &Rows,
    lists: &EntityLists,
    attr: usize,
) -> Result<ItemList<RowId>, NoMemory>
    requires values { All (λ row. attr < length row.values) rows.now }
    requires entities { lists.now.entities ≡ entities_of rows.now }
    ensures { IfOk result (λ names. names ≡ names_of rows.now attr) }
{
    let mut names = ItemList::new(alloc);
    for at in 0..lists.rows() {
        names.push(name_of(rows, lists, attr, RowId(at as u32)))?;
    }
    Ok(names)
}

// The first row of a row's entity that has its value of an attribute.
fn name_of(rows: &Rows, lists: &EntityLists, attr: usize, row: RowId) -> RowId
    requires row { row.0 < length rows.now }
    requires values { All (λ row. attr < length row.values) rows.now }
    requires entities { lists.now.entities ≡ entities_of rows.now }
    ensures { result ≡ name_of rows.now attr row }
{
    let members = lists.of_entity(lists.entity(row));
    for other in members {
        if have_one_value(rows, attr, row, *other) {
            return *other;
        }
    }
    row
}

// Whether two rows of one entity have one value of an attribute.
fn have_one_value(rows: &Rows, attr: usize, row: RowId, other: RowId) -> bool
    requires row { row.0 < length rows.now }
    requires other { other.0 < length rows.now }
    requires one_entity { entity_of rows.now row.0 ≡ entity_of rows.now other.0 }
    requires values { All (λ row. attr < length row.values) rows.now }
    ensures { result ≡ are_alike rows.now attr row other }
{
    value(rows, attr, row).test(Cmp::Eq, value(rows, attr, other))
}

// The value of an attribute in a row.
fn value(rows: &Rows, attr: usize, row: RowId) -> &Value
    requires row { row.0 < length rows.now }
    requires values { All (λ row. attr < length row.values) rows.now }
    ensures { field_value rows.now (Some row) attr ≡ Some result.now }
{
    rows.row(row).values.get(attr)
}

// The rows that are their own names.
fn own_names(alloc: Global, names: &[RowId]) -> Result<ItemList<RowId>, NoMemory>
    ensures { IfOk result (λ firsts. firsts ≡ firsts_of names.now) }
{
    let mut firsts = ItemList::new(alloc);
    for (at, name) in names.iter().enumerate() {
        if name.0 as usize == at {
            firsts.push(*name)?;
        }
    }
    Ok(firsts)
}
