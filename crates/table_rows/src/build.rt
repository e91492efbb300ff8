ghost use Rattle.std.specs.Prelude.{◌≡◌, ◌+◌, ◌^◌, ◌<◌, ◌⊎◌, IfErr, IfOk, OnOk, Err, length};
ghost use Rattle.table_rows.specs.Rows.{rows_from, AreRows};
ghost use Rattle.table_rows.specs.Growth.{HasGrown, IsRefusal};

use crate::names::{add_copy, entity_of};
use crate::tuple::{take_row_name, take_text};
use crate::{RowFault, TableRows};
use currency_base::{ItemList, Row, Rows, Tuple, TupleList};
use name_index::NameIndex;
use std::alloc::Global;

/// The rows of a relation's table, whose tuples hold the row's name, where `named` says so, then the
/// entity's name, and then the values of the attributes. Without names the rows are named by their
/// numbers, counted from 1.
pub fn table_rows(alloc: Global, tuples: TupleList, named: bool) -> Result<TableRows, RowFault>
    ensures exact { (result ≡ Err RowFault.NoMemory) ⊎ (result ≡ rows_from named tuples) }
    ensures facts { IfOk result AreRows }
{
    // The ids of rows and entities are numbers of 32 bits. No table of 64 MiB has so many rows.
    if tuples.len() >= u32::MAX as usize {
        return Err(RowFault::NoMemory);
    }
    let mut table = TableRows {
        rows: Rows::new(alloc),
        names: NameIndex::new(alloc),
        entities: NameIndex::new(alloc),
    };
    for tuple in tuples.into_items() {
        add_row(alloc, &mut table, tuple, named)?;
    }
    Ok(table)
}

/// Adds the row of a table's next tuple.
fn add_row(alloc: Global, table: &mut TableRows, tuple: Tuple, named: bool) -> Result<(), RowFault>
    requires few_rows { length table.old.rows + 2 < 2 ^ 32 }
    requires few_entities { length table.old.entities + 1 < 2 ^ 32 }
    ensures ok { OnOk result (HasGrown named table.old tuple table.new) }
    ensures err { IfErr result (IsRefusal named table.old tuple) }
{
    let place = table.rows.len();
    let mut values = tuple.into_items();
    let name = take_row_name(alloc, &mut values, place, named)?;
    let entity_name = take_text(alloc, &mut values)?;
    let is_new = add_copy(alloc, &mut table.names, &name)?;
    if !is_new {
        return Err(RowFault::Repeated {
            number: place as u32 + 2,
        });
    }
    let entity = entity_of(&mut table.entities, entity_name)?;
    let values = ItemList::from_items(values);
    table.rows.push(Row {
        name,
        entity,
        values,
    })?;
    Ok(())
}
