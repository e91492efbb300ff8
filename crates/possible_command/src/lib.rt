//! The command `possible`: what may hold, each with a completion in which it does, and what may not, with a report that shows it.
#![tactic(auto)]

mod candidate;
mod counter;
mod finding;
mod laws;
mod telling;
mod whole;
mod writing;

pub use finding::possible_documents;
pub use laws::one_possible;
