ghost use Rattle.std.specs.Prelude.{◌≡◌, map, IfOk};
ghost use Rattle.table_bind.specs.Columns.{column_of, text_column};

use currency_base::{ItemList, Name, NoMemory, ValueKind};
use currency_csv::Column;
use std::alloc::Global;

/// Columns of a table, in the order of the values of its tuples.
pub type ColumnList = ItemList<Column>;

/// The column of that name, copied, with values of that kind.
pub fn column(alloc: Global, name: &Name, kind: ValueKind) -> Result<Column, NoMemory>
    ensures { IfOk result (λ column. column ≡ column_of kind name.now) }
{
    Ok(Column {
        name: name.duplicate(alloc)?,
        kind,
    })
}

/// Columns of texts, by their names.
pub fn text_columns(alloc: Global, names: &[&str]) -> Result<ColumnList, NoMemory>
    ensures { IfOk result (λ columns. columns ≡ map (λ name. text_column name.now) names.now) }
{
    let mut columns = ColumnList::new(alloc);
    for name in names {
        columns.push(text_column(alloc, name)?)?;
    }
    Ok(columns)
}

/// The column of texts of that name.
fn text_column(alloc: Global, name: &str) -> Result<Column, NoMemory>
    ensures { IfOk result (λ column. column ≡ text_column name.now) }
{
    Ok(Column {
        name: Name::from_bytes(alloc, name.as_bytes())?,
        kind: ValueKind::Text,
    })
}
