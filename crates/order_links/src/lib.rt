//! Which lists of rows are linked: something can carry an order of rows from one to the other.
#![tactic(auto)]

mod links;
mod list;
mod ties;
mod ways;

pub use links::Links;
pub use list::{ListId, ListIdList};
