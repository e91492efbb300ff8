//! Unit propagation over watched clauses, and the watch rule by which it finds all that is implied.
#![tactic(auto)]

mod laws;
mod propagation;
mod truths;

pub use laws::{reasons_are_kept, watch_rule_is_kept, watched_are_at_rest};
pub use propagation::propagate;
pub use truths::truth;
