//! The command `ask`: a report that answers a question about a specification.
#![tactic(auto)]

mod asking;
mod telling;

pub use asking::ask_documents;
