//! The trail of a search: which variables have a value, in the order in which they got it, level by level.
#![tactic(auto)]

mod trail;
mod values;

pub use trail::Trail;
pub use values::Values;
