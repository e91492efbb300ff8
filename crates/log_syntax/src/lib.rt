//! The text of logs: which log tokens spell, and the reading of it.
//!
//! `specs/Grammar` says which tokens spell a log, one clause per rule; `specs/Reading` has the readers that
//! the code follows.
#![tactic(auto)]

mod fold;
mod label;
mod laws;
mod line;
mod lists;
mod log;
mod number;
mod read;
mod statement;
mod step;
mod trees;
mod value_list;

pub use fold::{Gathers, MOST, gather};
pub use laws::one_log;
pub use line::word_on;
pub use log::log_part;
pub use read::read_log;
pub use trees::{LineList, ReadLog, StatementTree};
pub use value_list::values;
