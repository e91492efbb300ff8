//! With some of its items alone, a specification exceeds no limit that it does not exceed with all.
#![tactic(auto)]

mod laws;

pub use laws::fewer_are_within;
