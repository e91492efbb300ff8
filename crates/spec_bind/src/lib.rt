//! Names to ids: the specification that a tree and its tables say.
#![tactic(auto)]

mod bind;
mod copy;
mod laws;
mod order;
mod orders;
mod relation;
mod rule;
mod statement;

pub use bind::bind_spec;
pub use bind_faults::{BindFault, Refusal};
pub use laws::one_outcome;
