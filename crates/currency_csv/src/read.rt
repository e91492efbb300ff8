// The public call: from the bytes of a table to its tuples.

ghost use Rattle.std.specs.Prelude.{◌≡◌, ◌⊎◌, List, ℕ, Err, map, All, IfOk};
ghost use Rattle.csv.specs.Records.{fields_of};
ghost use Rattle.currency_base.specs.Values.{kind_of};
ghost use Rattle.currency_csv.specs.Table.{AreRecordsOf, table_of};

use crate::columns::sources;
use crate::records::{first_ragged, read_records};
use crate::table::{Column, Table, TableFault, capped};
use crate::tuples::tuples;
use csv::ByteRecord;
use currency_base::NoMemory;
use std::alloc::Global;

/// Reads a table: one tuple per record below the header, with the values of `columns` in their order. One
/// byte order mark at the start of the bytes is dropped.
///
/// The first cause that stands decides: a ragged record, the header included; then a column that the header
/// lacks or has more than once, or no header at all; then, record by record, a field that is no integer.
/// Each tuple has a value of each column's kind.
pub fn read_table(alloc: Global, bytes: &[u8], columns: &[Column]) -> Result<Table, TableFault>
    ensures exact { (result ≡ Err TableFault.NoMemory)
        ⊎ ((records : List (List (List ℕ))) × AreRecordsOf bytes.now records × (result ≡ table_of columns.now records)) }
    ensures kinds { IfOk result (λ t. All (λ tuple. map kind_of tuple ≡ map (λ c. c.kind) columns.now) t.tuples) }
{
    match read_records(alloc, bytes) {
        Ok(records) => table_below(alloc, records.as_slice(), columns),
        Err(NoMemory) => Err(TableFault::NoMemory),
    }
}

// The table of records that are in memory.
fn table_below(
    alloc: Global,
    records: &[ByteRecord],
    columns: &[Column],
) -> Result<Table, TableFault>
    ensures { (result ≡ Err TableFault.NoMemory) ⊎ (result ≡ table_of columns.now (map fields_of records.now)) }
{
    let Some((header, rows)) = records.split_first() else {
        return Err(TableFault::MissingColumn { place: 0 });
    };
    if let Some(place) = first_ragged(header, records) {
        let number = capped(place.saturating_add(1));
        return Err(TableFault::Ragged { number });
    }
    match sources(alloc, header, columns) {
        Ok(sources) => match tuples(alloc, sources.as_slice(), rows) {
            Ok(tuples) => Ok(Table { tuples }),
            Err(fault) => Err(fault),
        },
        Err(fault) => Err(fault),
    }
}

/// A text has one list of records, so what [`read_table`] answers is a function of the bytes and the
/// columns, want of memory apart.
pub fn one_list_of_records()
    ensures { (bytes : List ℕ) (a b : List (List (List ℕ))) → AreRecordsOf bytes a → AreRecordsOf bytes b → a ≡ b }
{}
