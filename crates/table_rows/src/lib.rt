//! The rows and entities of a relation's table.
#![tactic(auto)]

mod build;
mod names;
mod rows;
mod tuple;

pub use build::table_rows;
pub use rows::{RowFault, TableRows};
pub use tuple::take_text;
