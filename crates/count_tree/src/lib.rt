//! A tree over counts that has the greatest one at its root.
#![tactic(auto)]

mod tournament;
mod tree;

pub use tree::CountTree;
