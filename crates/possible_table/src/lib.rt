//! The command `possible --csv`: the answers of a query that some consistent completion has, and which of them are certain, as a
//! table of comma-separated values.
#![tactic(auto)]

mod finding;
mod laws;
mod table;
mod telling;

pub use finding::possible_table_documents;
pub use laws::one_possible_table;
