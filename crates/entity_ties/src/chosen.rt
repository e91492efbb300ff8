ghost use Rattle.std.specs.Prelude.{◌≡◌, ◌<◌, ◌++◌, ℕ, All, Some, length, map, slice_get, IfOk, OnOk};
ghost use Rattle.entity_lists.specs.Lists.{Grouping};
ghost use Rattle.entity_ties.specs.Chosen.{AddsEntities, AreAllPlaces, AreChosen, ArePlacesIn, AreRowsOf, IsAscending};
ghost use Rattle.entity_ties.specs.Parts.{list_at};

use crate::cells::{Member, MemberList};
use crate::classes::NumberList;
use crate::lists::{empty_lists, put};
use currency_base::{EntId, EntList, ItemList, NoMemory, RowId, RowList};
use entity_lists::EntityLists;
use part_places::Places;
use std::alloc::Global;

/// The entities of some parts, by relation: in any order, and maybe several times.
pub(crate) fn chosen_entities(
    alloc: Global,
    relations: usize,
    parts: &ItemList<MemberList>,
    chosen: &[u32],
) -> Result<ItemList<NumberList>, NoMemory>
    requires chosen { All (λ part. part < length parts.now) chosen.now }
    requires relations { (part : ℕ) → All (λ m. m.rel.0 < relations) (list_at parts.now part) }
    ensures { IfOk result (λ found. AreChosen parts.now chosen.now relations found) }
{
    let mut found = empty_lists(alloc, relations)?;
    for part in chosen {
        add_entities(alloc, &mut found, parts.get(*part as usize).as_slice())?;
    }
    Ok(found)
}

// Adds entities to those of their relations.
fn add_entities(
    alloc: Global,
    found: &mut ItemList<NumberList>,
    members: &[Member],
) -> Result<(), NoMemory>
    requires { All (λ m. m.rel.0 < length found.old) members.now }
    ensures { OnOk result (AddsEntities members.now found.old found.new) }
{
    for member in members {
        put(alloc, found, member.rel.0 as usize, member.ent.0)?;
    }
    Ok(())
}

/// The places of entities, by relation: these and their rows, in order and each once.
pub(crate) fn places_of(
    alloc: Global,
    groups: &[EntityLists],
    found: &ItemList<NumberList>,
) -> Result<Places, NoMemory>
    requires many { length found.now ≡ length groups.now }
    requires within { (rel : ℕ) (group : Grouping) → slice_get groups.now rel ≡ Some group
        → All (λ ent. ent < group.count) (list_at found.now rel) }
    ensures { IfOk result (λ places. AreAllPlaces groups.now found.now (length groups.now) places.rows places.entities) }
{
    let mut rows = ItemList::new(alloc);
    let mut entities = ItemList::new(alloc);
    for rel in 0..groups.len() {
        let (in_rows, in_entities) = places_in(alloc, &groups[rel], found.get(rel).as_slice())?;
        rows.push(in_rows)?;
        entities.push(in_entities)?;
    }
    Ok(Places::new(rows, entities))
}

// The rows of some entities of a relation, and these.
fn places_in(
    alloc: Global,
    group: &EntityLists,
    numbers: &[u32],
) -> Result<(RowList, EntList), NoMemory>
    requires { All (λ ent. ent < group.now.count) numbers.now }
    ensures { IfOk result (λ places. ArePlacesIn group.now numbers.now places.0 places.1) }
{
    let entities = ascending(alloc, numbers)?;
    let found = rows_of(alloc, group, &entities)?;
    let rows = ascending(alloc, &found)?;
    let rows = row_list(alloc, &rows)?;
    Ok((rows, entity_list(alloc, &entities)?))
}

// The rows of some entities, by their numbers.
fn rows_of(alloc: Global, group: &EntityLists, entities: &[u32]) -> Result<Vec<u32>, NoMemory>
    requires { All (λ ent. ent < group.now.count) entities.now }
    ensures { IfOk result (λ rows. AreRowsOf group.now.entities entities.now rows.items) }
{
    let mut rows = Vec::new(alloc);
    for ent in entities {
        append_rows(&mut rows, group.of_entity(EntId(*ent)))?;
    }
    Ok(rows)
}

// Puts the numbers of rows behind others.
fn append_rows(rows: &mut Vec<u32>, more: &[RowId]) -> Result<(), NoMemory>
    ensures { OnOk result (rows.new.items ≡ rows.old.items ++ map (λ row. row.0) more.now) }
{
    for row in more {
        rows.push(row.0)?;
    }
    Ok(())
}

// The same numbers, ascending and each once.
fn ascending(alloc: Global, numbers: &[u32]) -> Result<Vec<u32>, NoMemory>
    ensures { IfOk result (λ ascending. IsAscending numbers.now ascending.items) }
{
    let mut ascending = Vec::new(alloc);
    ascending.extend_from_slice(numbers)?;
    ascending.sort_unstable();
    ascending.dedup();
    Ok(ascending)
}

// The entities of these numbers.
#[tactic(auto, using(std::proofs::lemmas::List::map_more))]
fn entity_list(alloc: Global, numbers: &[u32]) -> Result<EntList, NoMemory>
    ensures { IfOk result (λ entities. map (λ ent. ent.0) entities ≡ numbers.now) }
{
    let mut entities = EntList::new(alloc);
    for number in numbers {
        entities.push(EntId(*number))?;
    }
    Ok(entities)
}

// The rows of these numbers.
fn row_list(alloc: Global, numbers: &[u32]) -> Result<RowList, NoMemory>
    ensures { IfOk result (λ rows. map (λ row. row.0) rows ≡ numbers.now) }
{
    let mut rows = RowList::new(alloc);
    for number in numbers {
        rows.push(RowId(*number))?;
    }
    Ok(rows)
}
