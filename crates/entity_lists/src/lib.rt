//! The rows of each entity of a relation and where each row stands among them, kept flat.
#![tactic(auto)]

mod counting;
mod lists;

pub use lists::EntityLists;
