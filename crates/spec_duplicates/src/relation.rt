ghost use Rattle.std.specs.Prelude.{◌≡◌, IfOk};

use currency_base::{Name, NameList, NoMemory, Row, Rows};
use spec_model::{Attr, AttrList};
use std::alloc::Global;

/// The attributes, copied.
pub fn copied_attrs(alloc: Global, attrs: &AttrList) -> Result<AttrList, NoMemory>
    ensures { IfOk result (λ list. list ≡ attrs.now) }
{
    let mut list = AttrList::new(alloc);
    for attr in attrs.as_slice() {
        list.push(copied_attr(alloc, attr)?)?;
    }
    Ok(list)
}

/// The attribute, copied.
fn copied_attr(alloc: Global, attr: &Attr) -> Result<Attr, NoMemory>
    ensures { IfOk result (λ copy. copy ≡ attr.now) }
{
    Ok(Attr {
        name: attr.name.duplicate(alloc)?,
        kind: attr.kind,
    })
}

/// The rows, copied.
pub fn copied_rows(alloc: Global, rows: &Rows) -> Result<Rows, NoMemory>
    ensures { IfOk result (λ list. list ≡ rows.now) }
{
    let mut list = Rows::new(alloc);
    for row in rows.as_slice() {
        list.push(copied_row(alloc, row)?)?;
    }
    Ok(list)
}

/// The row, copied.
fn copied_row(alloc: Global, row: &Row) -> Result<Row, NoMemory>
    ensures { IfOk result (λ copy. copy ≡ row.now) }
{
    Ok(Row {
        name: row.name.duplicate(alloc)?,
        entity: row.entity,
        values: row.values.duplicate(alloc)?,
    })
}

/// The names, copied.
pub fn copied_names(alloc: Global, names: &NameList) -> Result<NameList, NoMemory>
    ensures { IfOk result (λ list. list ≡ names.now) }
{
    let mut list = NameList::new(alloc);
    for name in names.as_slice() {
        list.push(copied_name(alloc, name)?)?;
    }
    Ok(list)
}

/// The name, copied.
fn copied_name(alloc: Global, name: &Name) -> Result<Name, NoMemory>
    ensures { IfOk result (λ copy. copy ≡ name.now) }
{
    name.duplicate(alloc)
}
