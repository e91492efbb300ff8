ghost use Rattle.std.specs.Prelude.{◌≡◌, ◌<◌, ◌+◌, ◌^◌, ℕ, All, Some, length, slice_get, IfOk};
ghost use Rattle.entity_lists.specs.Lists.{entities_of, rows_of};

use crate::counting::{entity_numbers, front_sums, ranks, rows_by_entity, span, zeros};
use currency_base::{EntId, NoMemory, Row, RowId};
use std::alloc::Global;
use std::marker::Model;

/// The rows of each entity of a relation, ascending, and the place of each row among those of its entity.
/// Contracts see how many entities there are, and the entity of each row. A row takes twelve bytes, and an
/// entity four.
#[derive(Drop)]
pub struct EntityLists {
    // by row, its entity
    entities: Vec<u32>,
    // by entity, where its rows begin in `rows`, and one start more
    starts: Vec<u32>,
    // by row, its place among those of its entity
    places: Vec<u32>,
    // all rows, entity by entity
    rows: Vec<RowId>,
}

impl Model for EntityLists {
    ghost use Rattle.std.specs.Prelude.{◌-◌, length};
    ghost use Rattle.entity_lists.specs.Lists.{Grouping};
    ghost use Rattle.entity_lists.specs.Index.{IsIndex};

    ghost Value = { Grouping };

    ghost view = { λ l. record { count = length l.starts.items - 1; entities = l.entities.items } };

    ghost invariant = { λ l. IsIndex l.entities.items l.starts.items l.places.items l.rows.items };
}

impl EntityLists {
    /// The rows of each of so many entities. Takes time in proportion to the rows and entities.
    pub fn new(alloc: Global, rows: &[Row], entities: usize) -> Result<EntityLists, NoMemory>
        requires few { length rows.now + 1 < 2 ^ 32 }
        requires few_entities { entities + 1 < 2 ^ 32 }
        requires within { All (λ row. row.entity.0 < entities) rows.now }
        ensures count { IfOk result (λ lists. lists.count ≡ entities) }
        ensures entities { IfOk result (λ lists. lists.entities ≡ entities_of rows.now) }
    {
        let numbers = entity_numbers(alloc, rows)?;
        let mut counts = zeros(alloc, entities)?;
        let places = ranks(alloc, &numbers, &mut counts)?;
        let starts = front_sums(alloc, &counts)?;
        let rows = rows_by_entity(alloc, &numbers, &starts, &places)?;
        Ok(EntityLists {
            entities: numbers,
            starts,
            places,
            rows,
        })
    }

    /// How many entities there are.
    pub fn entities(&self) -> usize
        ensures { result ≡ self.now.count }
    {
        self.starts.len() - 1
    }

    /// How many rows there are.
    pub fn rows(&self) -> usize
        ensures value { result ≡ length self.now.entities }
        ensures few { length self.now.entities + 1 < 2 ^ 32 }
    {
        self.entities.len()
    }

    /// The entity of a row.
    pub fn entity(&self, row: RowId) -> EntId
        requires { row.0 < length self.now.entities }
        ensures value { slice_get self.now.entities row.0 ≡ Some result.0 }
        ensures within { result.0 < self.now.count }
    {
        EntId(self.entities[row.0 as usize])
    }

    /// The rows of an entity, ascending.
    pub fn of_entity(&self, ent: EntId) -> &[RowId]
        requires { ent.0 < self.now.count }
        ensures { result.now ≡ rows_of self.now.entities ent.0 }
    {
        let (start, end) = span(&self.starts, ent.0 as usize);
        &self.rows[start..end]
    }

    /// The place of a row among the rows of its entity, counted from 0.
    pub fn place(&self, row: RowId) -> usize
        requires { row.0 < length self.now.entities }
        ensures { (ent : ℕ) → slice_get self.now.entities row.0 ≡ Some ent
            → slice_get (rows_of self.now.entities ent) result ≡ Some row }
    {
        self.places[row.0 as usize] as usize
    }
}
