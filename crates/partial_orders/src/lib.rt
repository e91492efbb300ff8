//! Given pairs: which rows of an entity are known to be older than which, attribute by attribute.
#![tactic(auto)]

mod pairs;

pub use pairs::{PairFault, Pairs, pairs_are_restored};
