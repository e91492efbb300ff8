//! Reports as texts in canonical spelling and spacing, in version 2: whole, or brief, without the log, or the verdict alone.
//!
//! `specs/Pieces` has the tokens that are written, one clause per rule, and `specs/Writable` says which reports
//! can be written. `specs/Named`, `specs/Clauses` and `specs/Shown` have what the parts of the writer speak of.
#![tactic(auto)]

mod completion;
mod completions;
mod names;
mod ranking;
mod shown;
mod verdict;
mod writing;

pub use completion::{write_completion, write_later};
pub use names::{write_attribute, write_row};
pub use writing::{write_brief, write_report, write_verdict};
