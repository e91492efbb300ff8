ghost use Rattle.std.specs.Prelude.{◌≡◌, ◌<◌, ◌≤◌, ◌+◌, ◌++◌, IfOk, OnOk};
ghost use Rattle.trial_documents.specs.Rows;
ghost use Rattle.trial_documents.specs.Tables;

use crate::cell::{Attribute, Cell};
use crate::rows::{MOST_ENTITIES, ROWS, is_given, place_of, row_at};
use crate::text::Text;
use currency_base::NoMemory;
use std::alloc::Global;

/// A table of the generated specification.
#[derive(Clone, Copy)]
pub(crate) enum Table {
    /// The items, with a record for each row.
    Items,
    /// The views, with a record for each row.
    Views,
    /// Known pairs of items.
    Given,
    /// Which view is copied from which item.
    Copies,
    /// Pairs of items to ask about, one for each entity.
    Asked,
}

impl Table {
    /// The name of the document.
    pub(crate) fn name(self) -> &'static str
        ensures { result.now ≡ Tables.name_of self }
    {
        match self {
            Table::Items => "item.csv",
            Table::Views => "view.csv",
            Table::Given => "given.csv",
            Table::Copies => "copy.csv",
            Table::Asked => "asked.csv",
        }
    }

    /// The line of the columns' names.
    fn head(self) -> &'static str
        ensures { result.now ≡ Tables.head_of self }
    {
        match self {
            Table::Items => "id,eid,a,b,c\n",
            Table::Views => "id,eid,d\n",
            Table::Given | Table::Asked => "attribute,earlier,later\n",
            Table::Copies => "target,source\n",
        }
    }
}

/// The text of a table for so many entities.
#[tactic(auto, using(crate::proofs::Each::each_steps), unfolding(crate::specs::Tables::table_text))]
pub(crate) fn table_text(alloc: Global, table: Table, size: u32) -> Result<Text, NoMemory>
    requires { size ≤ MOST_ENTITIES }
    ensures { IfOk result (λ text. text ≡ Tables.table_text table size) }
{
    let mut text = Text::new(alloc);
    text.push_str(table.head())?;
    for entity in 0..size {
        write_entity(&mut text, table, size, entity)?;
    }
    Ok(text)
}

// Writes the lines of an entity.
fn write_entity(text: &mut Text, table: Table, size: u32, entity: u32) -> Result<(), NoMemory>
    requires size { size ≤ MOST_ENTITIES }
    requires entity { entity < size }
    ensures { OnOk result (text.new ≡ text.old ++ Tables.entity_lines table size entity) }
{
    match table {
        Table::Items => write_items(text, entity),
        Table::Views => write_views(text, entity),
        Table::Given => write_given(text, size, entity),
        Table::Copies => write_copies(text, entity),
        Table::Asked => write_asked(text, size, entity),
    }
}

// Writes the items of an entity.
#[tactic(auto, using(crate::proofs::Each::each_steps))]
fn write_items(text: &mut Text, entity: u32) -> Result<(), NoMemory>
    requires { entity < MOST_ENTITIES }
    ensures { OnOk result (text.new ≡ text.old ++ Tables.each 8 (Tables.item_line entity)) }
{
    for row in 0..ROWS {
        write_item(text, entity, row)?;
    }
    Ok(())
}

// Writes an item.
#[tactic(auto, unfolding(crate::specs::Tables::item_line))]
fn write_item(text: &mut Text, entity: u32, row: u32) -> Result<(), NoMemory>
    requires entity { entity < MOST_ENTITIES }
    requires row { row < ROWS }
    ensures { OnOk result (text.new ≡ text.old ++ Tables.item_line entity row) }
{
    let place = place_of(entity, row);
    text.push_line(&[
        Cell::Item { entity, row },
        Cell::Entity(entity),
        Cell::Number(row / 2),
        Cell::Number(place),
        Cell::Number(place % 4),
    ])
}

// Writes the views of an entity.
#[tactic(auto, using(crate::proofs::Each::each_steps))]
fn write_views(text: &mut Text, entity: u32) -> Result<(), NoMemory>
    requires { entity < MOST_ENTITIES }
    ensures { OnOk result (text.new ≡ text.old ++ Tables.each 8 (Tables.view_line entity)) }
{
    for row in 0..ROWS {
        write_view(text, entity, row)?;
    }
    Ok(())
}

// Writes a view.
#[tactic(auto, unfolding(crate::specs::Tables::view_line))]
fn write_view(text: &mut Text, entity: u32, row: u32) -> Result<(), NoMemory>
    requires entity { entity < MOST_ENTITIES }
    requires row { row < ROWS }
    ensures { OnOk result (text.new ≡ text.old ++ Tables.view_line entity row) }
{
    text.push_line(&[
        Cell::View { entity, row },
        Cell::Entity(entity),
        Cell::Number(place_of(entity, row) % 4),
    ])
}

// Writes which pairs of an entity are given.
#[tactic(auto, using(crate::proofs::Each::each_steps))]
fn write_given(text: &mut Text, size: u32, entity: u32) -> Result<(), NoMemory>
    requires size { size ≤ MOST_ENTITIES }
    requires entity { entity < size }
    ensures { OnOk result (text.new ≡ text.old ++ Tables.each 7 (Tables.given_line size entity)) }
{
    for place in 0..ROWS - 1 {
        write_given_pair(text, size, entity, place)?;
    }
    Ok(())
}

// Writes the pair of the items at a place and at the next one, where it is given.
#[tactic(auto, unfolding(crate::specs::Tables::given_line))]
fn write_given_pair(text: &mut Text, size: u32, entity: u32, place: u32) -> Result<(), NoMemory>
    requires size { size ≤ MOST_ENTITIES }
    requires entity { entity < size }
    requires place { place + 1 < ROWS }
    ensures { OnOk result (text.new ≡ text.old ++ Tables.given_line size entity place) }
{
    if !is_given(entity, place) {
        return Ok(());
    }
    text.push_line(&[
        Cell::Attribute(Attribute::B),
        item_at(size, entity, place),
        item_at(size, entity, place + 1),
    ])
}

// Writes from which item each view of an entity is copied.
#[tactic(auto, using(crate::proofs::Each::each_steps))]
fn write_copies(text: &mut Text, entity: u32) -> Result<(), NoMemory>
    ensures { OnOk result (text.new ≡ text.old ++ Tables.each 8 (Tables.copy_line entity)) }
{
    for row in 0..ROWS {
        write_copy(text, entity, row)?;
    }
    Ok(())
}

// Writes that a view is copied from the item of its number.
#[tactic(auto, unfolding(crate::specs::Tables::copy_line))]
fn write_copy(text: &mut Text, entity: u32, row: u32) -> Result<(), NoMemory>
    ensures { OnOk result (text.new ≡ text.old ++ Tables.copy_line entity row) }
{
    text.push_line(&[Cell::View { entity, row }, Cell::Item { entity, row }])
}

// Writes the pair of the items at the first and at the last place of an entity.
#[tactic(auto, unfolding(crate::specs::Tables::asked_line))]
fn write_asked(text: &mut Text, size: u32, entity: u32) -> Result<(), NoMemory>
    requires size { size ≤ MOST_ENTITIES }
    requires entity { entity < size }
    ensures { OnOk result (text.new ≡ text.old ++ Tables.asked_line size entity) }
{
    text.push_line(&[
        Cell::Attribute(Attribute::C),
        item_at(size, entity, 0),
        item_at(size, entity, ROWS - 1),
    ])
}

// The name of the item at a place of an entity.
fn item_at(size: u32, entity: u32, place: u32) -> Cell
    requires size { size ≤ MOST_ENTITIES }
    requires entity { entity < size }
    requires place { place < ROWS }
    ensures { result ≡ Cell.Item entity (Rows.row_at size entity place) }
{
    let row = row_at(size, entity, place);
    Cell::Item { entity, row }
}
