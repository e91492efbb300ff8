// Writing records into memory.

ghost use Rattle.std.specs.Prelude.{◌≡◌, IfOk, OnOk};
ghost use Rattle.std.specs.Io.KnownBytes.{Appends};
ghost use Rattle.csv.specs.Writing.{text_written};
ghost use Rattle.record_text.specs.Text.{record_text, records_text};
ghost use Rattle.record_text.specs.Writers.{IsBetween};

use csv::{Writer, WriterBuilder};
use currency_base::{ByteList, ItemList, NoMemory};
use std::alloc::Global;
use std::io::Write;

/// A record: the bytes of each of its fields.
pub type Record = ItemList<ByteList>;

/// Records, in the order of their lines.
pub type RecordList = ItemList<Record>;

/// The text of records as comma-separated values, as the crate `csv` writes them with its defaults.
///
/// A field is quoted exactly where it has a comma, a quote, a CR or an LF. LF ends each record, and a record of
/// one empty field, or of none, is `""`. Records may have different lengths. It is refused for want of memory
/// alone. The time is linear in the text.
pub fn records_text(alloc: Global, records: &[Record]) -> Result<ByteList, NoMemory>
    ensures { IfOk result (λ text. text ≡ records_text records.now) }
{
    let mut writer = WriterBuilder::new()
        .flexible(true)
        .from_writer(Vec::new(alloc));
    for record in records {
        put_record(&mut writer, record)?;
    }
    let Ok(text) = writer.into_inner() else {
        return Err(NoMemory);
    };
    Ok(ByteList::from_items(text))
}

// Writes one record. Where lengths may differ, a write into memory fails for want of memory alone.
fn put_record<W: Write + Drop>(writer: &mut Writer<W>, record: &Record) -> Result<(), NoMemory>
    requires { IsBetween writer.old }
    ensures between { OnOk result (IsBetween writer.new) }
    ensures text { OnOk result (Appends (text_written W.contents writer.old)
        (text_written W.contents writer.new) (record_text record.now)) }
{
    for field in record.as_slice() {
        let Ok(()) = writer.write_field(field.as_slice()) else {
            return Err(NoMemory);
        };
    }
    let Ok(()) = writer.end_record() else {
        return Err(NoMemory);
    };
    Ok(())
}
