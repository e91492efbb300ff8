//! Binding of orderings: the given pairs that an `order` statement says, and those that a table holds.
#![tactic(auto)]

mod bind;
mod resolve;
pub mod tables;

pub use bind::{add_all, bind_order};
pub use resolve::{checked, first_wrong, is_of_one_entity, resolve_all, resolve_pair};
