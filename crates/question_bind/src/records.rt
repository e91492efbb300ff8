// The records of asked tables, with their attributes found.

ghost use Rattle.std.specs.Prelude.{◌≡◌, length, All};
ghost use Rattle.bind_faults.specs.Faults.{all_of, IsDue};
ghost use Rattle.question_bind.specs.Steps.{AreNumbered, IsHeadOn, parts_with, records_named};

use crate::heads::Head;
use crate::tables::TableList;
use bind_faults::BindFault;
use currency_base::{ItemList, TupleList};
use order_bind::tables::{RecordList, records_of};
use question_syntax::AskedTree;
use spec_names::SpecNames;
use std::alloc::Global;

/// The records of tables, in the order of the parts; a part that is a text has none.
pub type RecordLists = ItemList<RecordList>;

/// The records of the parts' tables, or the refusal of the first whose attribute is unknown.
pub fn records_in(
    alloc: Global,
    names: &SpecNames,
    heads: &[Head],
    trees: &[AskedTree],
    tables: TableList,
) -> Result<RecordLists, BindFault>
    requires numbered { AreNumbered names.now }
    requires heads { All (IsHeadOn names.now) heads.now }
    requires trees { length trees.now ≡ length heads.now }
    requires tables { length tables ≡ length heads.now }
    ensures { IsDue (all_of (records_named names.now) (parts_with heads.now trees.now tables)) result }
{
    let mut lists = RecordLists::new(alloc);
    for tuples in tables.into_items() {
        let place = lists.len();
        match records_of_part(alloc, names, &heads[place], &trees[place], tuples) {
            Ok(records) => {
                let Ok(()) = lists.push(records) else {
                    return Err(BindFault::NoMemory);
                };
            }
            Err(fault) => return Err(fault),
        }
    }
    Ok(lists)
}

/// The records of a part's table.
fn records_of_part(
    alloc: Global,
    names: &SpecNames,
    head: &Head,
    tree: &AskedTree,
    tuples: TupleList,
) -> Result<RecordList, BindFault>
    requires numbered { AreNumbered names.now }
    requires head { IsHeadOn names.now head.now }
    ensures { IsDue (records_named names.now (head.now, tree.now, tuples)) result }
{
    match tree {
        AskedTree::Ordering(_) => Ok(RecordList::new(alloc)),
        AskedTree::Table { document, .. } => {
            let attrs = &names.relation(head.rel).attrs;
            records_of(alloc, &document.name, attrs, tuples)
        }
    }
}
