//! Laws on accepted logs: what they say of the consistent completions of a specification, and that they can
//! be trimmed.
#![tactic(auto)]

mod sound;
mod trimmed;

pub use sound::accepted_logs_are_true;
pub use trimmed::trimmed_logs_are_accepted;
