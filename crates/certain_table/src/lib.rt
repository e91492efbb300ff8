//! The command `ask --csv`: the certain answers of a query as a table of comma-separated values.
#![tactic(auto)]

mod finding;
mod laws;
mod telling;

pub use finding::certain_documents;
pub use laws::one_certain_table;
