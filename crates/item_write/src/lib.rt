//! Items of a specification as lines of text, and the text that tells where a budget is spent.
//!
//! `specs/Pieces` has the tokens that are written, a clause for each kind of item, and `specs/Placed` what is there of an item.
#![tactic(auto)]

mod item;
mod names;
mod spent;

pub use item::{write_item, write_items};
pub use spent::{spent_text, with_report, write_head};
