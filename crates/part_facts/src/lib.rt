//! Laws of facts over parts: a fact that holds of a part's rows holds of the whole.
#![tactic(auto)]

mod laws;

pub use laws::{facts_widen, parts_are_asked};
