// The rows that the table of a declaration holds.

ghost use Rattle.std.specs.Prelude.{◌≡◌, ◌⊎◌, ◌≤◌, ℕ, List, Err, IfOk, IfSome};
ghost use Rattle.currency_edge.specs.Fault.{Rose};
ghost use Rattle.table_rows.specs.Rows.{AreRows};
ghost use Rattle.bind_faults.specs.Faults.{IsDetermined, IsReadFault, IsReadFaultOf};
ghost use Rattle.relation_bind.specs.Relations.{columns_of, kinds_of_columns, kinds_declared, rows_read, IsTable};
ghost use Rattle.relation_bind.specs.Steps.{HaveKinds, RowsHaveKinds};

use crate::declaration::Declaration;
use bind_faults::BindFault;
use currency_base::{ErrorCode, NoMemory, TupleList, ValueKind};
use currency_edge::Shelf;
use std::alloc::Global;
use table_bind::{ColumnList, column, read_tuples, refused_in};
use table_rows::{RowFault, TableRows, table_rows};

/// The rows of the table of a declaration.
pub fn read_rows<S: Shelf>(
    alloc: Global,
    declaration: &Declaration,
    shelf: &mut S,
) -> Result<TableRows, BindFault>
    ensures kept { S.texts shelf.new ≡ S.texts shelf.old }
    ensures later { S.faults shelf.old ≤ S.faults shelf.new }
    ensures table { IsDetermined result
        → IfSome (S.texts shelf.old) (λ told. IsTable told declaration.now result) }
    ensures facts { IfOk result AreRows }
    ensures values { IfOk result (λ t. RowsHaveKinds (kinds_declared declaration.now) t.rows) }
    ensures read_fault { IsReadFault result → Rose (S.faults shelf.old) (S.faults shelf.new) }
    ensures names_it { (table : List ℕ) → IsReadFaultOf result table → declaration.now.document.name ≡ table }
{
    let columns = columns(alloc, declaration)?;
    let tuples = read_tuples(alloc, &declaration.document.name, columns.as_slice(), shelf)?;
    rows_of(alloc, declaration, tuples)
}

/// The rows of the tuples of a table.
fn rows_of(
    alloc: Global,
    declaration: &Declaration,
    tuples: TupleList,
) -> Result<TableRows, BindFault>
    requires { HaveKinds (kinds_of_columns declaration.now) tuples }
    ensures exact { (result ≡ Err BindFault.NoMemory) ⊎ (result ≡ rows_read declaration.now tuples) }
    ensures facts { IfOk result AreRows }
    ensures values { IfOk result (λ t. RowsHaveKinds (kinds_declared declaration.now) t.rows) }
{
    match table_rows(alloc, tuples, declaration.row.is_some()) {
        Ok(rows) => Ok(rows),
        Err(RowFault::Repeated { number }) => Err(refused_in(
            alloc,
            &declaration.document.name,
            ErrorCode::DuplicateRow,
            number,
        )),
        Err(RowFault::NoMemory) => Err(BindFault::NoMemory),
    }
}

/// The columns of the table: the rows' names, where there are some, the entities, and the attributes.
fn columns(alloc: Global, declaration: &Declaration) -> Result<ColumnList, NoMemory>
    ensures { IfOk result (λ columns. columns ≡ columns_of declaration.now) }
{
    let mut columns = ColumnList::new(alloc);
    if let Some(row) = declaration.row {
        columns.push(column(alloc, &row.name, ValueKind::Text)?)?;
    }
    columns.push(column(alloc, &declaration.entity.name, ValueKind::Text)?)?;
    for attr in declaration.attrs.as_slice() {
        columns.push(column(alloc, &attr.name.name, attr.kind)?)?;
    }
    Ok(columns)
}
