//! Tables that statements name: their documents are read as tuples of declared columns, or refused.
#![tactic(auto)]

mod columns;
mod laws;
mod refusals;
mod tuples;

pub use columns::{ColumnList, column, text_columns};
pub use laws::one_table;
pub use refusals::refused_in;
pub use tuples::read_tuples;
