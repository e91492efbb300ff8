//! A law: an explanation of a fact over a part is one over the whole.
#![tactic(auto)]

mod laws;

pub use laws::explanations_widen;
