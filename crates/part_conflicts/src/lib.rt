//! The smallest parts of a specification that are closed under copied rows: which are inconsistent, and why.
#![tactic(auto)]

mod alone;
mod found;
mod laws;
mod parts;

pub use found::{Conflict, ConflictList, Found};
pub use parts::conflicts;
