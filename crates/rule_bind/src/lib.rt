//! Names to ids: the rule that a tree says of a specification.
#![tactic(auto)]

mod bind;
mod kinds;
mod laws;
mod resolve;
mod variables;

pub use bind::bind_rule;
pub use laws::numbers_are_places;
