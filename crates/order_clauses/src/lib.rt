//! The axioms of a specification as clauses over a numbering's literals.
#![tactic(auto)]

mod column;
mod copied;
mod given;
mod listing;
mod pushing;
mod ruled;
mod sayings;
mod three_rows;
mod wanted;

pub use listing::clauses;
pub use three_rows::transitive;
