ghost use Rattle.std.specs.Prelude.{◌≡◌, ◌<◌, ◌++◌, ℕ, Some, length, slice_get, IfOk, OnOk};
ghost use Rattle.spec_model.specs.Facts.{IsRelation};
ghost use Rattle.copy_functions.specs.Copies.{IsCopied, source_at};
ghost use Rattle.entity_lists.specs.Lists.{entities_of, rows_of};
ghost use Rattle.copied_pairs.specs.Copied.{AreCopiedPairs, Ascend};
ghost use Rattle.copied_pairs.specs.Listing.{HasSources, pairs_with, pairs_if};

use crate::partners::goes_with;
use currency_base::{ItemList, NoMemory, RowId, Rows};
use entity_lists::EntityLists;
use spec_model::{CopyMap, Relation};
use std::alloc::Global;

/// Two different rows of one entity that a copy function maps to two different rows of one entity.
#[derive(Clone, Copy, PartialEq, Eq)]
pub struct CopiedPair {
    pub first: RowId,
    pub second: RowId,
}

/// Such pairs, by their first rows and then by their second.
pub type CopiedPairList = ItemList<CopiedPair>;

/// The pairs of rows of the target relation that were copied together. Takes time in proportion to the rows,
/// and to the pairs of a mapped row and a row of its entity.
pub fn copied_pairs(
    alloc: Global,
    copy: &CopyMap,
    target: &Relation,
    source: &Relation,
    lists: &EntityLists,
) -> Result<CopiedPairList, NoMemory>
    requires target { IsRelation target.now }
    requires source { IsRelation source.now }
    requires copied { IsCopied copy.now target.now.rows source.now.rows }
    requires count { lists.now.count ≡ length target.now.entities }
    requires entities { lists.now.entities ≡ entities_of target.now.rows }
    ensures exact { IfOk result (AreCopiedPairs copy.now target.now.rows source.now.rows) }
    ensures ascend { IfOk result Ascend }
{
    let mut pairs = CopiedPairList::new(alloc);
    for row in 0..target.rows.len() {
        add_pairs_of(&mut pairs, copy, &source.rows, lists, RowId(row as u32))?;
    }
    Ok(pairs)
}

// Puts the pairs of a row with the rows of its entity after the others; none where it is not mapped.
fn add_pairs_of(
    pairs: &mut CopiedPairList,
    copy: &CopyMap,
    source: &Rows,
    lists: &EntityLists,
    first: RowId,
) -> Result<(), NoMemory>
    requires sources { HasSources copy.now source.now }
    requires first { first.0 < length lists.now.entities }
    ensures { OnOk result ((ent : ℕ) → slice_get lists.now.entities first.0 ≡ Some ent
        → pairs.new ≡ pairs.old ++ pairs_if copy.now source.now first (source_at copy.now first)
        (rows_of lists.now.entities ent)) }
{
    let Some(from) = copy.source_of(first) else {
        return Ok(());
    };
    let rows = lists.of_entity(lists.entity(first));
    add_pairs_with(pairs, copy, source, first, from, rows)
}

// Puts the pairs of a row, which was copied from another, with these rows after the others.
fn add_pairs_with(
    pairs: &mut CopiedPairList,
    copy: &CopyMap,
    source: &Rows,
    first: RowId,
    from: RowId,
    rows: &[RowId],
) -> Result<(), NoMemory>
    requires sources { HasSources copy.now source.now }
    requires from { from.0 < length source.now }
    ensures { OnOk result (pairs.new ≡ pairs.old ++ pairs_with copy.now source.now first from rows.now) }
{
    for second in rows {
        if goes_with(copy, source, from, *second) {
            pairs.push(CopiedPair {
                first,
                second: *second,
            })?;
        }
    }
    Ok(())
}
