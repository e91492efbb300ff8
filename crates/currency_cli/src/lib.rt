//! The program over any shelf and sink: its words, the commands that they say, and its statuses.
#![tactic(auto)]

mod commands;
mod laws;
mod program;
mod words;

pub use laws::{one_due, one_text};
pub use program::run;
