// The tables of asked parts.

ghost use Rattle.std.specs.Prelude.{◌≡◌, ◌≤◌, ℕ, List, length, IfOk, IfSome};
ghost use Rattle.currency_edge.specs.Fault.{Rose};
ghost use Rattle.bind_faults.specs.Faults.{IsDetermined, IsReadFault, IsReadFaultOf};
ghost use Rattle.question_bind.specs.Asked.{IsRead, AreRead};
ghost use Rattle.question_bind.specs.Steps.{HasTable, IsItsTable};

use bind_faults::BindFault;
use currency_base::{ItemList, TupleList};
use currency_edge::Shelf;
use order_bind::tables::read_orders;
use question_syntax::AskedTree;
use std::alloc::Global;

/// The tuples of tables, in the order of the parts; a part that is a text has none.
pub type TableList = ItemList<TupleList>;

/// The tuples of the parts' tables, each read in turn.
pub fn tables_of<S: Shelf>(
    alloc: Global,
    trees: &[AskedTree],
    shelf: &mut S,
) -> Result<TableList, BindFault>
    ensures kept { S.texts shelf.new ≡ S.texts shelf.old }
    ensures later { S.faults shelf.old ≤ S.faults shelf.new }
    ensures read { IsDetermined result → IfSome (S.texts shelf.old) (λ told. AreRead told trees.now result) }
    ensures count { IfOk result (λ tables. length tables ≡ length trees.now) }
    ensures read_fault { IsReadFault result → Rose (S.faults shelf.old) (S.faults shelf.new) }
    ensures table { (name : List ℕ) → IsReadFaultOf result name → HasTable trees.now name }
{
    let mut tables = TableList::new(alloc);
    for tree in trees {
        match table_of(alloc, tree, shelf) {
            Ok(tuples) => {
                let Ok(()) = tables.push(tuples) else {
                    return Err(BindFault::NoMemory);
                };
            }
            Err(fault) => return Err(fault),
        }
    }
    Ok(tables)
}

/// The tuples of a part's table; a text has none.
fn table_of<S: Shelf>(
    alloc: Global,
    tree: &AskedTree,
    shelf: &mut S,
) -> Result<TupleList, BindFault>
    ensures kept { S.texts shelf.new ≡ S.texts shelf.old }
    ensures later { S.faults shelf.old ≤ S.faults shelf.new }
    ensures read { IsDetermined result → IfSome (S.texts shelf.old) (λ told. IsRead told tree.now result) }
    ensures read_fault { IsReadFault result → Rose (S.faults shelf.old) (S.faults shelf.new) }
    ensures table { (name : List ℕ) → IsReadFaultOf result name → IsItsTable tree.now name }
{
    match tree {
        AskedTree::Ordering(_) => Ok(TupleList::new(alloc)),
        AskedTree::Table { document, .. } => read_orders(alloc, &document.name, shelf),
    }
}
