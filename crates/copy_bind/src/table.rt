// Mappings that a table lists.

ghost use Rattle.std.specs.Prelude.{◌≡◌, ◌≤◌, ◌∷◌, [], ℕ, List, All, IfOk, IfSome, map};
ghost use Rattle.currency_base.specs.Values.{kind_of};
ghost use Rattle.currency_edge.specs.Fault.{Rose};
ghost use Rattle.bind_faults.specs.Faults.{IsDetermined, IsReadFault, IsReadFaultOf};
ghost use Rattle.copy_bind.specs.Copied.{pair_in, pairs_from};
ghost use Rattle.copy_bind.specs.Made.{AreListed, copy_columns};
ghost use Rattle.copy_bind.specs.Steps.{AreTexts, IsText};

use bind_faults::BindFault;
use currency_base::{Name, NoMemory, Tuple, TupleList, Value};
use currency_edge::Shelf;
use std::alloc::Global;
use table_bind::{ColumnList, read_tuples, text_columns};
use text_grammar::{Named, NamedPair, NamedPairList};

/// The number of the first record below the header.
const FIRST_RECORD: u32 = 2;

/// The pairs of names that a document lists: one for each record, with the record's number for a line.
pub fn read_pairs<S: Shelf>(
    alloc: Global,
    document: &Name,
    shelf: &mut S,
) -> Result<NamedPairList, BindFault>
    ensures kept { S.texts shelf.new ≡ S.texts shelf.old }
    ensures later { S.faults shelf.old ≤ S.faults shelf.new }
    ensures pairs { IsDetermined result → IfSome (S.texts shelf.old) (λ told. AreListed told document.now result) }
    ensures read_fault { IsReadFault result → Rose (S.faults shelf.old) (S.faults shelf.new) }
    ensures names_it { (table : List ℕ) → IsReadFaultOf result table → document.now ≡ table }
{
    let columns = copy_columns(alloc)?;
    match read_tuples(alloc, document, columns.as_slice(), shelf) {
        Ok(tuples) => match pairs_in(alloc, tuples) {
            Ok(pairs) => Ok(pairs),
            Err(NoMemory) => Err(BindFault::NoMemory),
        },
        Err(fault) => Err(fault),
    }
}

/// The columns of the table.
fn copy_columns(alloc: Global) -> Result<ColumnList, NoMemory>
    ensures { IfOk result (λ columns. columns ≡ copy_columns) }
{
    text_columns(alloc, &["target", "source"])
}

/// The pairs of names in tuples of two texts, which are those of all records.
fn pairs_in(alloc: Global, tuples: TupleList) -> Result<NamedPairList, NoMemory>
    requires { All AreTexts tuples }
    ensures { IfOk result (λ pairs. pairs ≡ pairs_from 2 tuples) }
{
    let mut pairs = NamedPairList::new(alloc);
    let mut number = FIRST_RECORD;
    for tuple in tuples.into_items() {
        pairs.push(pair_in(number, tuple))?;
        number = number.saturating_add(1);
    }
    Ok(pairs)
}

/// The pair of names in a tuple of two texts, for the record of this number.
fn pair_in(number: u32, tuple: Tuple) -> NamedPair
    requires { AreTexts tuple }
    ensures { result ≡ pair_in number tuple }
{
    let mut values = tuple.into_items().into_iter();
    let target = text_of(values.next().unwrap());
    let source = text_of(values.next().unwrap());
    NamedPair {
        first: Named {
            name: target,
            line: number,
        },
        second: Named {
            name: source,
            line: number,
        },
    }
}

/// The text that a value is.
fn text_of(value: Value) -> Name
    requires { IsText value }
    ensures { value ≡ Value.Text result }
{
    match value {
        Value::Text(text) => text,
        Value::Int(_) => unreachable!(),
    }
}
