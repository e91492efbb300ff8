ghost use Rattle.std.specs.Prelude.{◌≡◌};

use currency_base::{NoMemory, Rows};
use name_index::NameIndex;

/// What a relation's table holds: its rows in the order of the records, their names, and the names of
/// the entities in the order of their first rows.
#[derive(Drop)]
pub struct TableRows {
    pub rows: Rows,
    pub names: NameIndex,
    pub entities: NameIndex,
}

/// Why the rows of a table are refused.
#[derive(Clone, Copy, Debug, PartialEq, Eq)]
pub enum RowFault {
    /// The row name of this record stands before. The header is record 1; a number past 4294967295 is
    /// told as 4294967295.
    Repeated { number: u32 },
    /// Want of memory.
    NoMemory,
}

impl From<NoMemory> for RowFault {
    ghost use Rattle.table_rows.specs.declared.rows.RowFault.TheVariants as fault;

    ghost from_gives = { λ _ e. e ≡ fault.NoMemory };

    fn from(_: NoMemory) -> RowFault {
        RowFault::NoMemory
    }
}
