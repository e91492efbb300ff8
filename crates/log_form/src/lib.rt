//! Well-formed logs: statements in order that speak of what a specification has, and literals of these
//! statements.
#![tactic(auto)]

mod form;
mod index;
mod order;
mod rows;
mod statements;
mod steps;

pub use form::{FormFault, first_fault, literals_are_of_statements};
