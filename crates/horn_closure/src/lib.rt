//! The least set of cells of squares that is closed under clauses and under meeting: a closure of orders, each a
//! square of rows by rows.
#![tactic(auto)]

mod closing;
mod derived;
mod joins;
mod known;
mod laws;
mod looks;
mod squares;
mod uses;

pub use closing::{Clauses, least};
pub use derived::{Derived, Why};
pub use laws::derived_are_least;
