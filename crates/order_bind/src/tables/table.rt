// The table of given pairs.

ghost use Rattle.std.specs.Prelude.{◌≡◌, ◌≤◌, ℕ, List, IfOk, IfSome};
ghost use Rattle.currency_edge.specs.Fault.{Rose};
ghost use Rattle.bind_faults.specs.Faults.{IsDetermined, IsReadFault, IsReadFaultOf};
ghost use Rattle.table_bind.specs.Tuples.{AreTuples};
ghost use Rattle.order_bind.specs.TableOrders.{order_columns};

use bind_faults::BindFault;
use currency_base::{Name, NoMemory, TupleList};
use currency_edge::Shelf;
use std::alloc::Global;
use table_bind::{ColumnList, read_tuples, text_columns};

/// The tuples of the document of that name, read as a table of given pairs.
pub fn read_orders<S: Shelf>(
    alloc: Global,
    name: &Name,
    shelf: &mut S,
) -> Result<TupleList, BindFault>
    ensures kept { S.texts shelf.new ≡ S.texts shelf.old }
    ensures later { S.faults shelf.old ≤ S.faults shelf.new }
    ensures tuples { IsDetermined result
        → IfSome (S.texts shelf.old) (λ told. AreTuples told name.now order_columns result) }
    ensures read_fault { IsReadFault result → Rose (S.faults shelf.old) (S.faults shelf.new) }
    ensures names_it { (table : List ℕ) → IsReadFaultOf result table → name.now ≡ table }
{
    let columns = order_columns(alloc)?;
    read_tuples(alloc, name, columns.as_slice(), shelf)
}

/// The columns of a table of given pairs.
#[tactic(auto, unfolding(crate::specs::TableOrders::order_columns))]
fn order_columns(alloc: Global) -> Result<ColumnList, NoMemory>
    ensures { IfOk result (λ columns. columns ≡ order_columns) }
{
    text_columns(alloc, &["attribute", "earlier", "later"])
}
