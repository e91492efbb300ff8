//! A part of a specification exceeds no limit that the whole does not exceed.
#![tactic(auto)]

mod laws;

pub use laws::parts_are_within;
