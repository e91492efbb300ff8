// The pairs of rows that asked parts say.

ghost use Rattle.std.specs.Prelude.{◌≡◌, length, All};
ghost use Rattle.bind_faults.specs.Faults.{all_of, IsDue};
ghost use Rattle.question_bind.specs.Steps.{AreNumbered, IsHeadOn, parts_with, pairs_named};

use crate::heads::Head;
use crate::records::RecordLists;
use bind_faults::BindFault;
use currency_base::{AttrId, ItemList, PairList};
use order_bind::resolve_all;
use order_bind::tables::{PairRecord, pairs_of};
use question_syntax::AskedTree;
use spec_names::SpecNames;
use std::alloc::Global;

/// Lists of pairs, in the order of the parts.
pub type PairLists = ItemList<PairList>;

/// The pairs of the parts, or the refusal of the first row that is unknown.
pub fn pairs_in(
    alloc: Global,
    names: &SpecNames,
    heads: &[Head],
    trees: &[AskedTree],
    records: &RecordLists,
) -> Result<PairLists, BindFault>
    requires numbered { AreNumbered names.now }
    requires heads { All (IsHeadOn names.now) heads.now }
    requires trees { length trees.now ≡ length heads.now }
    requires records { length records.now ≡ length heads.now }
    ensures { IsDue (all_of (pairs_named names.now) (parts_with heads.now trees.now records.now)) result }
{
    let mut lists = PairLists::new(alloc);
    for (place, head) in heads.iter().enumerate() {
        let said = records.get(place).as_slice();
        match pairs_of_part(alloc, names, head, &trees[place], said) {
            Ok(pairs) => {
                let Ok(()) = lists.push(pairs) else {
                    return Err(BindFault::NoMemory);
                };
            }
            Err(fault) => return Err(fault),
        }
    }
    Ok(lists)
}

/// The pairs of a part.
fn pairs_of_part(
    alloc: Global,
    names: &SpecNames,
    head: &Head,
    tree: &AskedTree,
    records: &[PairRecord],
) -> Result<PairList, BindFault>
    requires numbered { AreNumbered names.now }
    requires head { IsHeadOn names.now head.now }
    ensures { IsDue (pairs_named names.now (head.now, tree.now, records.now)) result }
{
    let rows = &names.relation(head.rel).rows;
    match tree {
        AskedTree::Ordering(ordering) => {
            let attr = AttrId(head.attr.unwrap_or(0) as u32);
            resolve_all(alloc, rows, attr, ordering.pairs.as_slice())
        }
        AskedTree::Table { document, .. } => pairs_of(alloc, &document.name, rows, records),
    }
}
