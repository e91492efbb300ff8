// The records of a text, kept in memory, and whether they fit their header.

ghost use Rattle.std.specs.Prelude.{◌≡◌, IfOk, [], map, position};
ghost use Rattle.std.specs.List.{list_all, slice_index_or};
ghost use Rattle.std.specs.Str.{is_utf8};
ghost use Rattle.csv.specs.Records.{fields_of};
ghost use Rattle.currency_csv.specs.Table.{AreRecordsOf, is_ragged};

use csv::{ByteRecord, ReaderBuilder};
use currency_base::{NoMemory, is_text};
use std::alloc::Global;

// Every record of the bytes, the header included. A reader of bytes in memory fails for want of memory alone.
pub(crate) fn read_records(alloc: Global, bytes: &[u8]) -> Result<Vec<ByteRecord>, NoMemory>
    ensures { IfOk result (λ records. AreRecordsOf bytes.now (map fields_of records.items)) }
{
    let reader = ReaderBuilder::new()
        .has_headers(false)
        .flexible(true)
        .from_reader(alloc, bytes);
    let mut records = Vec::new(alloc);
    for record in reader.into_byte_records() {
        let Ok(record) = record else {
            return Err(NoMemory);
        };
        if records.push(record).is_err() {
            return Err(NoMemory);
        }
    }
    Ok(records)
}

// The place of the first record that does not fit the header.
pub(crate) fn first_ragged(header: &ByteRecord, records: &[ByteRecord]) -> Option<usize>
    ensures { result ≡ position (λ r. is_ragged (fields_of header.now) (fields_of r)) records.now }
{
    records.iter().position(|row| is_ragged(header, row))
}

#[tactic(auto, unfolding(crate::specs::Table::is_ragged))]
fn is_ragged(header: &ByteRecord, row: &ByteRecord) -> bool
    ensures { result ≡ is_ragged (fields_of header.now) (fields_of row.now) }
{
    row.len() != header.len() || !is_text_row(row)
}

#[tactic(auto, using(crate::proofs::Fields::all_so_far, crate::proofs::Fields::not_all))]
fn is_text_row(row: &ByteRecord) -> bool
    ensures { result ≡ list_all is_utf8 (fields_of row.now) }
{
    for place in 0..row.len() {
        if !is_text(field(row, place)) {
            return false;
        }
    }
    true
}

// The field of a record at a place, and no byte where there is none.
pub(crate) fn field(row: &ByteRecord, place: usize) -> &[u8]
    ensures { result.now ≡ slice_index_or (fields_of row.now) place [] }
{
    row.get(place).unwrap_or(b"")
}
