//! Tables of comma-separated values, read against the columns that a relation declares.
//!
//! A table's text begins with its header, the record that names the columns. Each record below it is a
//! tuple, whose values come in the order of the declared columns.
#![tactic(auto)]

mod columns;
mod read;
mod records;
mod table;
mod tuples;

pub use read::{one_list_of_records, read_table};
pub use table::{Column, Table, TableFault};
