//! Which entities copied rows tie together: the smallest parts of a specification, and the places of some of them.
#![tactic(auto)]

mod cells;
mod chosen;
mod classes;
mod labels;
mod links;
mod lists;
mod order;
mod ties;

pub use cells::Member;
pub use ties::Ties;
