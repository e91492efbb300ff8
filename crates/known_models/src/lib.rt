//! A model of a specification's axioms that is known, and is made anew part by part.
#![tactic(auto)]

mod draft;
mod known;
mod laws;
mod parted;
mod placing;
mod ranking;
mod truths;

pub use known::KnownModel;
pub use laws::{known_is_model, values_are_models};
pub use parted::PartedSpec;
