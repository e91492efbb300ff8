//! The command `trial`: the questions about a generated specification, answered in turn.
#![tactic(auto)]

mod trial;

pub use trial::try_generated;
