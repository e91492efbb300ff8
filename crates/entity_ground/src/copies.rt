ghost use Rattle.std.specs.Prelude.{◌≡◌, IfOk, map};
ghost use Rattle.std.specs.List.{AllZip};
ghost use Rattle.spec_model.specs.Facts.{AreRelations, IsCopyAmong, AreCopies};
ghost use Rattle.entity_ground.specs.Parts.{grouping_of, ArePaired};

use crate::relations::{lists_at, relation_at};
use copied_pairs::{CopiedPairList, copied_pairs};
use currency_base::{ItemList, NoMemory};
use entity_lists::EntityLists;
use spec_model::{CopyMap, Relation};
use std::alloc::Global;

/// For each copy function its pairs.
pub(crate) fn copy_grounds(
    alloc: Global,
    relations: &[Relation],
    lists: &[EntityLists],
    copies: &[CopyMap],
) -> Result<ItemList<CopiedPairList>, NoMemory>
    requires relations { AreRelations relations.now }
    requires lists { lists.now ≡ map grouping_of relations.now }
    requires copies { AreCopies relations.now copies.now }
    ensures { IfOk result (AllZip (ArePaired relations.now) copies.now) }
{
    let mut all = ItemList::new(alloc);
    for copy in copies {
        let pairs = match pairs_of_copy(alloc, relations, lists, copy) {
            Ok(pairs) => pairs,
            Err(NoMemory) => return Err(NoMemory),
        };
        let Ok(()) = all.push(pairs) else {
            return Err(NoMemory);
        };
    }
    Ok(all)
}

// The pairs of a copy function between two of the relations.
fn pairs_of_copy(
    alloc: Global,
    relations: &[Relation],
    lists: &[EntityLists],
    copy: &CopyMap,
) -> Result<CopiedPairList, NoMemory>
    requires relations { AreRelations relations.now }
    requires lists { lists.now ≡ map grouping_of relations.now }
    requires copy { IsCopyAmong relations.now copy.now }
    ensures { IfOk result (ArePaired relations.now copy.now) }
{
    let target = relation_at(relations, copy.target());
    let source = relation_at(relations, copy.source());
    let own = lists_at(lists, copy.target());
    copied_pairs(alloc, copy, target, source, own)
}
