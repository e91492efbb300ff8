//! Reports that answer questions, as texts.
#![tactic(auto)]

mod answers;
mod names;

pub use answers::{ending_of, printed_report, report_on};
