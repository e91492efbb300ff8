//! A specification with some of its items alone, as one of its own.
#![tactic(auto)]

mod copies;
mod copying;
mod laws;
mod marks;
mod relation;

pub use copying::with_marked;
pub use laws::alike_are_one;
