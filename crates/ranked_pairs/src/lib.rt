//! Which pairs of rows hold in a completion.
#![tactic(auto)]

mod holds;

pub use holds::pair_holds;
