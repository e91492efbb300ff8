//! Which variables lie in each smallest closed part of a specification.
#![tactic(auto)]

mod keys;
mod laws;
mod parts;
mod sorting;
mod source;

pub use laws::{axioms_stay_in_parts, variables_have_parts};
pub use parts::VariableParts;
