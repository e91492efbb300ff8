//! The items that a fact needs: an explanation of it, found by leaving out one item after the other.
#![tactic(auto)]

mod laws;
mod leaving;
mod needed;
mod reducing;
mod trying;

pub use fact_trials::{AskFault, Trial, answer, has_answer, try_fact};
pub use needed::{Needed, NeededList};
pub use reducing::{Reduced, Spent, reduce};
