// The pairs that records say.

ghost use Rattle.std.specs.Prelude.{◌≡◌, ◌<◌, ◌^◌, length};
ghost use Rattle.bind_faults.specs.Faults.{all_of, IsDue};
ghost use Rattle.order_bind.specs.TableOrders.{checked, pair_in};

use crate::first_wrong;
use crate::tables::records::{PairRecord, find_in, line_at};
use bind_faults::BindFault;
use currency_base::{ErrorCode, Name, Pair, PairList, Row, RowId};
use name_index::NameIndex;
use std::alloc::Global;
use table_bind::refused_in;

/// The pairs of the records, or the refusal of the first in which a row is none of these.
pub fn pairs_of(
    alloc: Global,
    table: &Name,
    rows: &NameIndex,
    records: &[PairRecord],
) -> Result<PairList, BindFault>
    requires { length rows.now < 2 ^ 32 }
    ensures { IsDue (all_of (pair_in table.now rows.now) records.now) result }
{
    let mut pairs = PairList::new(alloc);
    for entry in records {
        match pair_of(alloc, table, rows, entry) {
            Ok(pair) => {
                let Ok(()) = pairs.push(pair) else {
                    return Err(BindFault::NoMemory);
                };
            }
            Err(fault) => return Err(fault),
        }
    }
    Ok(pairs)
}

/// The pair of a record.
fn pair_of(
    alloc: Global,
    table: &Name,
    rows: &NameIndex,
    entry: &PairRecord,
) -> Result<Pair, BindFault>
    requires { length rows.now < 2 ^ 32 }
    ensures { IsDue (pair_in table.now rows.now entry.now) result }
{
    let line = entry.line;
    let code = ErrorCode::UnknownRow;
    let earlier = find_in(alloc, table, code, line, rows, &entry.earlier)?;
    let later = find_in(alloc, table, code, line, rows, &entry.later)?;
    Ok(Pair {
        attr: entry.attr,
        earlier: RowId(earlier as u32),
        later: RowId(later as u32),
    })
}

/// The pairs, unless one of them is not of two different rows of one entity: the record of the first such
/// pair is refused.
pub fn checked(
    alloc: Global,
    table: &Name,
    rows: &[Row],
    pairs: PairList,
) -> Result<PairList, BindFault>
    ensures { IsDue (checked table.now rows.now pairs) result }
{
    match first_wrong(rows, pairs.as_slice()) {
        None => Ok(pairs),
        Some(wrong) => {
            let line = line_at(wrong);
            Err(refused_in(alloc, table, ErrorCode::NotOneEntity, line))
        }
    }
}
