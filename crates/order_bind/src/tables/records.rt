// The records of a table of given pairs, with their attributes found.

ghost use Rattle.std.specs.Prelude.{◌≡◌, ◌<◌, ◌^◌, length, IfOk};
ghost use Rattle.std.specs.List.{enumerate_from};
ghost use Rattle.bind_faults.specs.Faults.{all_of, IsDue};
ghost use Rattle.order_bind.specs.TableOrders.{line_at, place_in, record_in};

use bind_faults::BindFault;
use currency_base::{AttrId, ErrorCode, ItemList, Name, Tuple, TupleList};
use name_index::NameIndex;
use std::alloc::Global;
use table_bind::refused_in;
use table_rows::take_text;

/// What a record of the table says: its line, the attribute, and the names of the rows.
#[derive(Drop)]
pub struct PairRecord {
    pub line: u32,
    pub attr: AttrId,
    pub earlier: Name,
    pub later: Name,
}

/// Records, in the order of the table.
pub type RecordList = ItemList<PairRecord>;

/// The records of the tuples, or the refusal of the first whose attribute is none of these.
pub fn records_of(
    alloc: Global,
    table: &Name,
    attrs: &NameIndex,
    tuples: TupleList,
) -> Result<RecordList, BindFault>
    requires { length attrs.now < 2 ^ 32 }
    ensures { IsDue (all_of (record_in table.now attrs.now) (enumerate_from 0 tuples)) result }
{
    let mut records = RecordList::new(alloc);
    for tuple in tuples.into_items() {
        match record_of(alloc, table, attrs, records.len(), tuple) {
            Ok(record) => {
                let Ok(()) = records.push(record) else {
                    return Err(BindFault::NoMemory);
                };
            }
            Err(fault) => return Err(fault),
        }
    }
    Ok(records)
}

/// The record of the tuple at a place.
fn record_of(
    alloc: Global,
    table: &Name,
    attrs: &NameIndex,
    place: usize,
    tuple: Tuple,
) -> Result<PairRecord, BindFault>
    requires { length attrs.now < 2 ^ 32 }
    ensures { IsDue (record_in table.now attrs.now (place, tuple)) result }
{
    let line = line_at(place);
    let mut values = tuple.into_items();
    let name = take_text(alloc, &mut values)?;
    let earlier = take_text(alloc, &mut values)?;
    let later = take_text(alloc, &mut values)?;
    let attr = find_in(alloc, table, ErrorCode::UnknownName, line, attrs, &name)?;
    Ok(PairRecord {
        line,
        attr: AttrId(attr as u32),
        earlier,
        later,
    })
}

/// The place of a name, or the refusal of the record in which it stands.
pub fn find_in(
    alloc: Global,
    table: &Name,
    code: ErrorCode,
    line: u32,
    names: &NameIndex,
    name: &Name,
) -> Result<usize, BindFault>
    ensures due { IsDue (place_in table.now code line names.now name.now) result }
    ensures within { IfOk result (λ place. place < length names.now) }
{
    match names.find(name) {
        Some(place) => Ok(place),
        None => Err(refused_in(alloc, table, code, line)),
    }
}

/// The line of the record of the tuple at a place.
pub fn line_at(place: usize) -> u32
    ensures { result ≡ line_at place }
{
    if place < 4294967293 {
        place as u32 + 2
    } else {
        4294967295
    }
}
