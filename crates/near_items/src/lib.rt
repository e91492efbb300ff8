//! The items that a fact needs which holds in every consistent completion: sought over the smallest part that its derivation
//! speaks of, and over the whole where that shows nothing.
#![tactic(auto)]

mod asking;
mod base;
mod failing;
mod finding;
mod laws;
mod named;
mod near;
mod seeking;
mod site;
mod touched;
mod whole;
mod widening;

pub use seeking::{Sought, seek};
