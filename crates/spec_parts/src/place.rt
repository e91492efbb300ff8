ghost use Rattle.std.specs.Prelude.{◌≡◌, ◌+◌, ◌<◌, ◌^◌, length, Some, slice_get, Contains};
ghost use Rattle.part_laws.specs.Parts.{RowsAscend, EntitiesAscend};

use currency_base::{EntId, RowId};

/// The number that a row of the whole has in the part, among the rows that the part has.
pub(crate) fn place_of_row(rows: &[RowId], row: RowId) -> RowId
    requires few { length rows.now + 1 < 2 ^ 32 }
    requires ascend { RowsAscend rows.now }
    requires listed { Contains rows.now row }
    ensures { slice_get rows.now result.0 ≡ Some row }
{
    match rows.binary_search(&row) {
        Ok(place) => RowId(place as u32),
        Err(_) => unreachable!(),
    }
}

/// The number that an entity of the whole has in the part, among the entities that the part has.
pub(crate) fn place_of_entity(entities: &[EntId], entity: EntId) -> EntId
    requires few { length entities.now + 1 < 2 ^ 32 }
    requires ascend { EntitiesAscend entities.now }
    requires listed { Contains entities.now entity }
    ensures { slice_get entities.now result.0 ≡ Some entity }
{
    match entities.binary_search(&entity) {
        Ok(place) => EntId(place as u32),
        Err(_) => unreachable!(),
    }
}
