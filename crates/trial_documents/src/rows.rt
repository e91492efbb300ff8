ghost use Rattle.std.specs.Prelude.{◌≡◌, ◌<◌, ◌≤◌};
ghost use Rattle.trial_documents.specs.Rows;

/// How many entities a generated specification has at most.
pub const MOST_ENTITIES: u32 = 1000;

/// How many rows an entity has in a relation.
pub(crate) const ROWS: u32 = 8;

/// The place of a row in the hidden order of its entity.
pub(crate) fn place_of(entity: u32, row: u32) -> u32
    requires entity { entity < MOST_ENTITIES }
    requires row { row < ROWS }
    ensures { result ≡ Rows.place_of entity row }
{
    (3 * row + entity) % ROWS
}

/// The row at a place of the hidden order of its entity, which is one of `size`.
pub(crate) fn row_at(size: u32, entity: u32, place: u32) -> u32
    requires size { size ≤ MOST_ENTITIES }
    requires entity { entity < size }
    requires place { place < ROWS }
    ensures { result ≡ Rows.row_at size entity place }
{
    3 * (place + ROWS * size - entity) % ROWS
}

/// Is the pair of the row at a place and the row at the next place given?
pub(crate) fn is_given(entity: u32, place: u32) -> bool
    requires entity { entity < MOST_ENTITIES }
    requires place { place < ROWS }
    ensures { result ≡ Rows.is_given entity place }
{
    entity % 2 == 0 || (entity + place) % 3 != 0
}
