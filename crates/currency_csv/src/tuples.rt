// The tuples of the records below a header.

ghost use Rattle.std.specs.Prelude.{◌≡◌, ◌⊎◌, IfOk, IsTrue, Err};
ghost use Rattle.std.specs.List.{list_all};
ghost use Rattle.std.specs.Str.{is_utf8};
ghost use Rattle.csv.specs.Records.{fields_of};
ghost use Rattle.currency_csv.specs.Sources.{are_text, read_tuple, read_tuples};
ghost use Rattle.currency_csv.specs.Table.{value_of};

use crate::columns::Source;
use crate::records::field;
use crate::table::{TableFault, capped};
use csv::ByteRecord;
use currency_base::{Name, NoMemory, Tuple, TupleList, Value, ValueKind, read_int};
use std::alloc::Global;

// The tuples of records, whose numbers count on from 2.
pub(crate) fn tuples(
    alloc: Global,
    sources: &[Source],
    rows: &[ByteRecord],
) -> Result<TupleList, TableFault>
    requires { IsTrue (are_text rows.now) }
    ensures { (result ≡ Err TableFault.NoMemory) ⊎ (result ≡ read_tuples sources.now rows.now) }
{
    let mut tuples = TupleList::new(alloc);
    for (place, row) in rows.iter().enumerate() {
        let number = capped(place.saturating_add(2));
        let tuple = match tuple(alloc, sources, row, number) {
            Ok(tuple) => tuple,
            Err(fault) => return Err(fault),
        };
        let Ok(()) = tuples.push(tuple) else {
            return Err(TableFault::NoMemory);
        };
    }
    Ok(tuples)
}

// The values of one record.
fn tuple(
    alloc: Global,
    sources: &[Source],
    row: &ByteRecord,
    number: u32,
) -> Result<Tuple, TableFault>
    requires { IsTrue (list_all is_utf8 (fields_of row.now)) }
    ensures { (result ≡ Err TableFault.NoMemory) ⊎ (result ≡ read_tuple sources.now number (fields_of row.now)) }
{
    let mut tuple = Tuple::new(alloc);
    for (place, source) in sources.iter().enumerate() {
        let value = match value(alloc, source.kind, field(row, source.place)) {
            Ok(Some(value)) => value,
            Ok(None) => {
                let place = capped(place);
                return Err(TableFault::BadInt { number, place });
            }
            Err(NoMemory) => return Err(TableFault::NoMemory),
        };
        let Ok(()) = tuple.push(value) else {
            return Err(TableFault::NoMemory);
        };
    }
    Ok(tuple)
}

// The value of a kind that a field says.
#[tactic(auto, using(crate::proofs::Fields::utf8_from_test))]
fn value(alloc: Global, kind: ValueKind, field: &[u8]) -> Result<Option<Value>, NoMemory>
    requires { IsTrue (is_utf8 field.now) }
    ensures { IfOk result (λ value. value ≡ value_of kind field.now) }
{
    match kind {
        ValueKind::Int => Ok(read_int(field).map(Value::Int)),
        ValueKind::Text => match Name::from_bytes(alloc, field) {
            Ok(name) => Ok(Some(Value::Text(name))),
            Err(NoMemory) => Err(NoMemory),
        },
    }
}
