//! Completions of a part, joined with one of the whole.
#![tactic(auto)]

mod joining;
mod laws;

pub use joining::{joined, put};
pub use laws::completions_fit;
