// Where the values of the declared columns stand in a record.

ghost use Rattle.std.specs.Prelude.{◌≡◌, ◌⊎◌, List, ℕ, IfOk, IsTrue, Err};
ghost use Rattle.std.specs.List.{list_all};
ghost use Rattle.std.specs.Str.{bytes_eq, is_utf8};
ghost use Rattle.csv.specs.Records.{fields_of};
ghost use Rattle.indexmap.specs.IndexMap.{get};
ghost use Rattle.currency_csv.specs.Sources.{seen_of, sources_of, with_items};
ghost use Rattle.currency_csv.specs.Table.{places_in};

use crate::records::field;
use crate::table::{Column, TableFault, capped};
use csv::ByteRecord;
use currency_base::{Name, NoMemory, ValueKind};
use indexmap::IndexMap;
use std::alloc::Global;

// Where a column's values come from: their place in each record, and their kind.
#[derive(Clone, Copy, PartialEq, Eq)]
pub(crate) struct Source {
    pub(crate) place: usize,
    pub(crate) kind: ValueKind,
}

// The sources of the columns, in their order.
pub(crate) fn sources(
    alloc: Global,
    header: &ByteRecord,
    columns: &[Column],
) -> Result<Vec<Source>, TableFault>
    requires { IsTrue (list_all is_utf8 (fields_of header.now)) }
    ensures { (result ≡ Err TableFault.NoMemory) ⊎ (with_items result ≡ sources_of (fields_of header.now) columns.now) }
{
    let places = match places_by_name(alloc, header) {
        Ok(places) => places,
        Err(NoMemory) => return Err(TableFault::NoMemory),
    };
    let mut sources = Vec::new(alloc);
    for (number, column) in columns.iter().enumerate() {
        let Some(place) = places.get(&column.name).copied().flatten() else {
            let place = capped(number);
            return Err(TableFault::MissingColumn { place });
        };
        let kind = column.kind;
        let Ok(()) = sources.push(Source { place, kind }) else {
            return Err(TableFault::NoMemory);
        };
    }
    Ok(sources)
}

// The place of each name of a header, and `None` for a name that stands there more than once.
fn places_by_name(
    alloc: Global,
    header: &ByteRecord,
) -> Result<IndexMap<Name, Option<usize>>, NoMemory>
    requires { IsTrue (list_all is_utf8 (fields_of header.now)) }
    ensures { IfOk result (λ places. (name : List ℕ) → get bytes_eq places name ≡ seen_of
        (places_in (fields_of header.now) name)) }
{
    let mut places = IndexMap::new(alloc);
    for place in 0..header.len() {
        let Ok(name) = Name::from_bytes(alloc, field(header, place)) else {
            return Err(NoMemory);
        };
        let seen = if places.contains_key(&name) {
            None
        } else {
            Some(place)
        };
        let Ok(_) = places.insert(name, seen) else {
            return Err(NoMemory);
        };
    }
    Ok(places)
}
