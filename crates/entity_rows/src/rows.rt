ghost use Rattle.std.specs.Prelude.{◌≡◌, ◌<◌, ◌∷◌, ◌++◌, [], length, replicate, slice_set, slice_index_or, vec_len, IfOk, OnOk};
ghost use Rattle.spec_model.specs.Facts.{IsRelation};
ghost use Rattle.entity_rows.specs.Members.{AreEntityRows};

use currency_base::{ItemList, NoMemory, RowId, RowList};
use spec_model::Relation;
use std::alloc::Global;

/// The rows of each entity of a relation, one list per entity in the order of the entities.
pub type EntityRows = ItemList<RowList>;

/// The rows of each entity of a relation, ascending. Takes time in proportion to the rows and entities.
pub fn entity_rows(alloc: Global, relation: &Relation) -> Result<EntityRows, NoMemory>
    requires { IsRelation relation.now }
    ensures { IfOk result (AreEntityRows relation.now.rows (length relation.now.entities)) }
{
    let mut lists = no_rows(alloc, relation.entities.len())?;
    for (at, row) in relation.rows.as_slice().iter().enumerate() {
        put(&mut lists, row.entity.0 as usize, RowId(at as u32))?;
    }
    Ok(EntityRows::from_items(lists))
}

// So many lists with no row.
fn no_rows(alloc: Global, entities: usize) -> Result<Vec<RowList>, NoMemory>
    ensures { IfOk result (λ lists. lists.items ≡ replicate entities []) }
{
    let mut lists = Vec::new(alloc);
    for _ in 0..entities {
        lists.push(RowList::new(alloc))?;
    }
    Ok(lists)
}

// Puts a row at the end of a list.
fn put(lists: &mut Vec<RowList>, ent: usize, row: RowId) -> Result<(), NoMemory>
    requires { ent < vec_len lists.old }
    ensures { OnOk result (lists.new.items ≡ slice_set lists.old.items ent (slice_index_or lists.old.items ent [] ++ row ∷ [])) }
{
    lists[ent].push(row)
}
