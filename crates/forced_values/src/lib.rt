//! The facts on current values that forced pairs alone tell, with no search.
#![tactic(auto)]

mod groups;
mod marking;
mod values;

pub use marking::forced_facts;
