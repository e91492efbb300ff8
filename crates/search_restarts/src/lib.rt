//! When a search starts over, and how long each guide of a ring leads.
#![tactic(auto)]

mod restarts;

pub use restarts::{LEADER, Restarts};
