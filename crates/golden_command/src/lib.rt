//! The command `golden`: for each entity of a relation the values that are current in every consistent completion, as a table
//! of comma-separated values.
#![tactic(auto)]

mod asked;
mod finding;
mod laws;
mod records;
mod telling;

pub use finding::golden_document;
pub use laws::one_golden;
