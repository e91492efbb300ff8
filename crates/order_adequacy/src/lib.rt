//! Adequacy of the axioms: their models are the consistent completions.
#![tactic(auto)]

mod laws;

pub use laws::{axioms_are_true, models_are_completions};
