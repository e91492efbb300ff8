//! Laws on written reports: the tokens of what is written spell the tree of the report, and reading it gives the report
//! again.
#![tactic(auto)]

mod laws;
mod spelled;

pub use laws::{tree_says_report, written_is_read};
