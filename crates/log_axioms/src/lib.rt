//! The axioms of a specification and of a query: which clause each label has, what the literals of a log say, and which
//! literals are the clause of a label.
#![tactic(auto)]

mod answers;
mod axioms;
mod clauses;
mod compare;
mod conditions;
mod copies;
mod entities;
mod matches;
mod rules;
mod signed;

pub use axioms::Axioms;
pub use signed::{Signed, SignedList};
