//! The pairs of rows that were copied together: of one entity, from rows of one entity.
#![tactic(auto)]

mod pairs;
mod partners;

pub use pairs::{CopiedPair, CopiedPairList, copied_pairs};
