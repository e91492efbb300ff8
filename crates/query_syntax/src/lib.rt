//! The language of queries: their trees, and the reading of their tokens.
//!
//! `specs/Grammar` says which tokens spell a query. `specs/Reading` has the readers that the code follows,
//! and `proofs/Rules` ties the two together for the language above.
#![tactic(auto)]

mod atom;
mod comparison;
mod disjunct;
mod query;
mod trees;

pub use query::QueryRule;
pub use trees::{
    AtomTree, DisjunctTree, DisjunctTreeList, PartTree, PartTreeList, PlaceTree, PlaceTreeList,
    QueryTree, TestTermTree, TestTree,
};
