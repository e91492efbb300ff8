ghost use Rattle.std.specs.Prelude.{◌≡◌, ◌≤◌, ℕ, List, map, All, IfOk, IfSome};
ghost use Rattle.currency_base.specs.Values.{kind_of};
ghost use Rattle.currency_edge.specs.Fault.{Rose};
ghost use Rattle.bind_faults.specs.Faults.{IsDetermined, IsReadFault, IsReadFaultOf};
ghost use Rattle.table_bind.specs.Tuples.{AreTuples};
ghost use Rattle.table_bind.specs.Steps.{Reads, ReadsTuples};

use crate::refusals::table_refusal;
use bind_faults::BindFault;
use currency_base::{ByteList, Name, TupleList};
use currency_csv::{Column, read_table};
use currency_edge::{Shelf, ShelfFault};
use std::alloc::Global;

/// How many bytes a table may have: 64 MiB.
const TABLE_BOUND: usize = 67108864;

/// The limit that a longer table is above.
const TABLE_LIMIT: u8 = 2;

/// The tuples of the document of that name, read as a table of these columns: one for each record below
/// the header, its values in the order of the columns. A document of more than 64 MiB is above limit 2.
pub fn read_tuples<S: Shelf>(
    alloc: Global,
    name: &Name,
    columns: &[Column],
    shelf: &mut S,
) -> Result<TupleList, BindFault>
    ensures kept { S.texts shelf.new ≡ S.texts shelf.old }
    ensures later { S.faults shelf.old ≤ S.faults shelf.new }
    ensures tuples { IsDetermined result
        → IfSome (S.texts shelf.old) (λ told. AreTuples told name.now columns.now result) }
    ensures kinds { IfOk result (All (λ tuple. map kind_of tuple ≡ map (λ c. c.kind) columns.now)) }
    ensures read_fault { IsReadFault result → Rose (S.faults shelf.old) (S.faults shelf.new) }
    ensures names_it { (table : List ℕ) → IsReadFaultOf result table → name.now ≡ table }
{
    let bytes = read_document(alloc, name, shelf)?;
    tuples_in(alloc, name, columns, bytes.as_slice())
}

/// The bytes of a table's document.
fn read_document<S: Shelf>(alloc: Global, name: &Name, shelf: &mut S) -> Result<ByteList, BindFault>
    ensures kept { S.texts shelf.new ≡ S.texts shelf.old }
    ensures later { S.faults shelf.old ≤ S.faults shelf.new }
    ensures reads { IfSome (S.texts shelf.old) (λ told. Reads told name.now result) }
    ensures read_fault { IsReadFault result → Rose (S.faults shelf.old) (S.faults shelf.new) }
    ensures names_it { (table : List ℕ) → IsReadFaultOf result table → name.now ≡ table }
{
    let mut bytes = Vec::new(alloc);
    match shelf.read(alloc, name.text(), TABLE_BOUND, &mut bytes) {
        Ok(()) => Ok(ByteList::from_items(bytes)),
        Err(ShelfFault::TooLong) => Err(BindFault::Limit(TABLE_LIMIT)),
        Err(ShelfFault::Failed) => Err(BindFault::ReadFault(name.duplicate(alloc)?)),
        Err(ShelfFault::NoMemory) => Err(BindFault::NoMemory),
    }
}

/// The tuples of a table in the bytes of its document.
fn tuples_in(
    alloc: Global,
    name: &Name,
    columns: &[Column],
    bytes: &[u8],
) -> Result<TupleList, BindFault>
    ensures reads { ReadsTuples name.now columns.now bytes.now result }
    ensures kinds { IfOk result (All (λ tuple. map kind_of tuple ≡ map (λ c. c.kind) columns.now)) }
{
    match read_table(alloc, bytes, columns) {
        Ok(table) => Ok(table.tuples),
        Err(fault) => Err(table_refusal(alloc, name, fault)),
    }
}
