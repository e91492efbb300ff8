//! The pairs of rows of one entity of a relation, numbered without a map.
#![tactic(auto)]

mod numbers;
mod pair;

pub use numbers::PairNumbers;
pub use pair::RowPair;
