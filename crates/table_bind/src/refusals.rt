ghost use Rattle.std.specs.Prelude.{◌≡◌, ◌⊎◌};
ghost use Rattle.bind_faults.specs.Faults.{refused_in};
ghost use Rattle.table_bind.specs.Tuples.{table_refusal};

use bind_faults::{BindFault, Refusal};
use currency_base::{ErrorCode, Name};
use currency_csv::TableFault;
use std::alloc::Global;

/// The refusal of a record of the table of that name, or want of memory.
pub fn refused_in(alloc: Global, table: &Name, code: ErrorCode, line: u32) -> BindFault
    ensures { (result ≡ BindFault.NoMemory) ⊎ (result ≡ refused_in table.now code line) }
{
    match table.duplicate(alloc) {
        Ok(document) => BindFault::Refused(Refusal {
            code,
            document: Some(document),
            line,
        }),
        Err(_) => BindFault::NoMemory,
    }
}

/// The refusal that a table's fault is.
pub(crate) fn table_refusal(alloc: Global, table: &Name, fault: TableFault) -> BindFault
    ensures { (result ≡ BindFault.NoMemory) ⊎ (result ≡ table_refusal table.now fault) }
{
    match fault {
        TableFault::Ragged { number } => refused_in(alloc, table, ErrorCode::Ragged, number),
        TableFault::MissingColumn { .. } => refused_in(alloc, table, ErrorCode::MissingColumn, 1),
        TableFault::BadInt { number, .. } => refused_in(alloc, table, ErrorCode::BadInt, number),
        TableFault::NoMemory => BindFault::NoMemory,
    }
}
