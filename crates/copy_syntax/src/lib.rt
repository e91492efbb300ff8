//! The language of copies: the trees of `copy` statements, and their reading.
//!
//! `specs/Grammar` says which tokens spell a copy. `specs/Reading` has the readers that the code follows,
//! and `proofs/Copies` ties the two together for the language above.
#![tactic(auto)]

mod copy;
mod rows;
mod trees;

pub use copy::CopyRule;
pub use trees::{CopyTree, Mappings};
