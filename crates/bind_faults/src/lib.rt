//! Why nothing is bound, and names that are found or refused.
#![tactic(auto)]

mod fault;
mod names;

pub use fault::{BindFault, Refusal};
pub use names::find;
