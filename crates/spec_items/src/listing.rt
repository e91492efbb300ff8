ghost use Rattle.std.specs.Prelude.{◌≡◌, ◌<◌, ◌+◌, ◌^◌, ◌++◌, length, map, slice_get, IfOk, OnOk};
ghost use Rattle.spec_model.specs.Facts.{AreRelations};
ghost use Rattle.spec_items.specs.Items.{copy_items, given_items, items_of, mapped_items, rows_of, rule_items};
ghost use Rattle.spec_items.specs.declared.item.Item.TheVariants as item;

use crate::Item;
use currency_base::{CopyId, ItemList, NoMemory, RelId, RowId, RuleId};
use spec_model::{CopyMap, Relation, Rule, Specification};
use std::alloc::Global;

/// All items of a specification: the given pairs by relation and in their order, then the rules, then the mapped rows by copy
/// function and row.
pub fn items(alloc: Global, spec: &Specification) -> Result<ItemList<Item>, NoMemory>
    ensures { IfOk result (λ items. items ≡ items_of spec.now) }
{
    let mut items = ItemList::new(alloc);
    put_given(&mut items, spec.relations())?;
    put_rules(&mut items, spec.rules())?;
    put_copies(&mut items, spec.relations(), spec.copies())?;
    Ok(items)
}

// Puts in the given pairs of relations.
fn put_given(items: &mut ItemList<Item>, relations: &[Relation]) -> Result<(), NoMemory>
    requires { length relations.now < 2 ^ 32 }
    ensures { OnOk result (items.new ≡ items.old ++ given_items 0 relations.now) }
{
    for (rel, relation) in relations.iter().enumerate() {
        put_pairs(items, RelId(rel as u32), relation)?;
    }
    Ok(())
}

// Puts in the given pairs of a relation.
fn put_pairs(items: &mut ItemList<Item>, rel: RelId, relation: &Relation) -> Result<(), NoMemory>
    ensures { OnOk result (items.new ≡ items.old ++ map (λ p. item.Given rel p) relation.now.given) }
{
    for pair in relation.given.iter() {
        items.push(Item::Given { rel, pair: *pair })?;
    }
    Ok(())
}

// Puts in rules.
fn put_rules(items: &mut ItemList<Item>, rules: &[Rule]) -> Result<(), NoMemory>
    requires { length rules.now < 2 ^ 32 }
    ensures { OnOk result (items.new ≡ items.old ++ rule_items 0 rules.now) }
{
    for (rule, _) in rules.iter().enumerate() {
        items.push(Item::Rule(RuleId(rule as u32)))?;
    }
    Ok(())
}

// Puts in the mapped rows of copy functions.
fn put_copies(
    items: &mut ItemList<Item>,
    relations: &[Relation],
    copies: &[CopyMap],
) -> Result<(), NoMemory>
    requires relations { AreRelations relations.now }
    requires copies { length copies.now < 2 ^ 32 }
    ensures { OnOk result (items.new ≡ items.old ++ copy_items relations.now 0 copies.now) }
{
    for (place, copy) in copies.iter().enumerate() {
        let rows = count_rows(relations, copy.target());
        put_mapped(items, CopyId(place as u32), copy, rows)?;
    }
    Ok(())
}

// How many rows a relation has, if it is there.
fn count_rows(relations: &[Relation], rel: RelId) -> usize
    requires { AreRelations relations.now }
    ensures count { result ≡ rows_of (slice_get relations.now rel.0) }
    ensures few { result < 2 ^ 32 }
{
    match relations.get(rel.0 as usize) {
        Some(relation) => relation.rows.len(),
        None => 0,
    }
}

// Puts in the mapped rows of a copy function, of so many.
fn put_mapped(
    items: &mut ItemList<Item>,
    copy: CopyId,
    map: &CopyMap,
    rows: usize,
) -> Result<(), NoMemory>
    requires { rows < 2 ^ 32 }
    ensures { OnOk result (items.new ≡ items.old ++ mapped_items copy.0 map.now rows) }
{
    for row in 0..rows {
        let target = RowId(row as u32);
        if map.source_of(target).is_some() {
            items.push(Item::Copy { copy, target })?;
        }
    }
    Ok(())
}
