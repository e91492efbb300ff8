//! Which rows and entities a part of a specification has.
#![tactic(auto)]

mod places;

pub use places::Places;
