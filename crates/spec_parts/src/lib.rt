//! Parts of a specification: the rows of some entities, closed under copied rows, as a specification of its own.
#![tactic(auto)]

mod copies;
mod given;
mod index;
mod laws;
mod parts;
mod place;
mod relation;
mod row;
mod rule;

pub use index::GivenIndex;
pub use parts::part;
