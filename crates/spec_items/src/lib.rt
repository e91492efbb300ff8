//! The items of a specification: its given pairs, its rules and its copied rows, which an explanation names and a part
//! may leave out.
#![tactic(auto)]

mod item;
mod laws;
mod listing;

pub use item::Item;
pub use laws::{all_items, fewer_items};
pub use listing::items;
