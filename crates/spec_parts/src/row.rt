ghost use Rattle.std.specs.Prelude.{◌≡◌, ◌+◌, ◌<◌, ◌^◌, length, All, IfOk};
ghost use Rattle.part_laws.specs.Parts.{EntitiesAscend, IsRowPart};
ghost use Rattle.spec_parts.specs.Steps.{ArePaired, IsListedRow, IsNamePart};

use crate::place::place_of_entity;
use currency_base::{EntId, Name, NameList, NoMemory, Row, RowId, Rows};
use std::alloc::Global;

/// The rows of a part: each as it is in the whole, for its entity by the number in the part.
pub(crate) fn part_rows(
    alloc: Global,
    table: &Rows,
    entities: &[EntId],
    rows: &[RowId],
) -> Result<Rows, NoMemory>
    requires few { length entities.now + 1 < 2 ^ 32 }
    requires ascend { EntitiesAscend entities.now }
    requires listed { All (IsListedRow table.now entities.now) rows.now }
    ensures { IfOk result (ArePaired (IsRowPart table.now entities.now) rows.now) }
{
    let mut list = Rows::new(alloc);
    for row in rows {
        list.push(part_row(alloc, table, entities, *row)?)?;
    }
    Ok(list)
}

/// A row of a part.
fn part_row(alloc: Global, table: &Rows, entities: &[EntId], row: RowId) -> Result<Row, NoMemory>
    requires few { length entities.now + 1 < 2 ^ 32 }
    requires ascend { EntitiesAscend entities.now }
    requires listed { IsListedRow table.now entities.now row }
    ensures { IfOk result (IsRowPart table.now entities.now row) }
{
    let old = table.row(row);
    let entity = place_of_entity(entities, old.entity);
    let name = old.name.duplicate(alloc)?;
    let values = old.values.duplicate(alloc)?;
    Ok(Row {
        name,
        entity,
        values,
    })
}

/// The names of a part's entities.
pub(crate) fn part_names(
    alloc: Global,
    names: &NameList,
    entities: &[EntId],
) -> Result<NameList, NoMemory>
    requires { All (λ ent. ent.0 < length names.now) entities.now }
    ensures { IfOk result (ArePaired (IsNamePart names.now) entities.now) }
{
    let mut list = NameList::new(alloc);
    for entity in entities {
        list.push(name_of(alloc, names, *entity)?)?;
    }
    Ok(list)
}

/// The name of an entity, copied.
fn name_of(alloc: Global, names: &NameList, entity: EntId) -> Result<Name, NoMemory>
    requires { entity.0 < length names.now }
    ensures { IfOk result (IsNamePart names.now entity) }
{
    names.get(entity.0 as usize).duplicate(alloc)
}
