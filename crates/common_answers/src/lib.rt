//! The answers of a query that completions have in common.
#![tactic(auto)]

mod candidates;
mod common;
mod merging;
mod printed;

pub use common::are_common;
