//! Which facts hold in every consistent completion, and consistent completions in which the others fail: sought over the
//! smallest parts of which the facts speak, and over the whole where that shows nothing.
#![tactic(auto)]

mod claims;
mod deciding;
mod each;
mod grouping;
mod laws;
mod near;
mod rest;
mod seen;
mod shown;
mod site;
mod slots;
mod task;
mod trying;

pub use deciding::decide_facts;
pub use fact_trials::{AskFault, answer};
pub use shown::{FactOutcome, Shown, ShownList};
