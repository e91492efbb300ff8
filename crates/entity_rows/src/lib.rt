//! The rows of each entity of a relation, found without a scan.
#![tactic(auto)]

mod rows;

pub use rows::{EntityRows, entity_rows};
