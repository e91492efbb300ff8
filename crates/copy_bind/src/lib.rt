//! Copies to copy functions: the head, whose names become relations, attributes and places; and the rows that a copy
//! maps, from its text or from a table.
#![tactic(auto)]

mod attrs;
mod bind;
mod head;
mod laws;
mod map;
mod mapping;
mod repeated;
mod side;
mod table;

pub use bind::bind_copy;
pub use laws::one_copy;
