//! The command `conflicts`: the smallest parts of a specification that are inconsistent, each with what explains that
//! it is.
#![tactic(auto)]

mod finding;
mod laws;
mod telling;
mod writing;

pub use finding::conflicts_document;
pub use laws::one_conflicts;
