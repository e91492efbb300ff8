//! Hints of which none is idle.
#![tactic(auto)]

mod laws;

pub use laws::each_adds_one;
