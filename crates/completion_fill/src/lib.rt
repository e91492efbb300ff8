//! Completions that are told by what differs from another one.
#![tactic(auto)]

mod filling;

pub use filling::fill;
