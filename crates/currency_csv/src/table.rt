ghost use Rattle.std.specs.Prelude.{◌≡◌};
ghost use Rattle.currency_csv.specs.Capped.{capped};

use currency_base::{Name, TupleList, ValueKind};

/// A declared column: the name that the header has for it, and the kind of its values.
#[derive(Drop)]
pub struct Column {
    pub name: Name,
    pub kind: ValueKind,
}

/// What a table holds: one tuple per record below the header, in order, each with its values in the order
/// of the columns.
#[derive(Drop)]
pub struct Table {
    pub tuples: TupleList,
}

/// Why a table is not read. Records are numbered from 1, which is the header; places count the columns
/// from 0. A number past 4294967295 is told as 4294967295.
#[derive(Clone, Copy, Debug, PartialEq, Eq)]
pub enum TableFault {
    /// The record has another number of fields than the header, or a field that is not UTF-8.
    Ragged { number: u32 },
    /// The header has the column of this place not at all or more than once. Where there is no header the
    /// place is 0.
    MissingColumn { place: u32 },
    /// The field of the record in the column of this place, whose kind is `ValueKind::Int`, is no integer.
    BadInt { number: u32, place: u32 },
    /// There was no memory for the table.
    NoMemory,
}

// A number as a fault tells it.
pub(crate) fn capped(number: usize) -> u32
    ensures { result ≡ capped number }
{
    if number < 4294967295 {
        number as u32
    } else {
        4294967295
    }
}
