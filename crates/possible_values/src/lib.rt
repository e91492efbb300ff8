//! Possible values and answers: which of a question's candidates hold in some consistent completion, each with one in which it
//! does, and which hold in none.
#![tactic(auto)]

mod candidates;
mod facts;
mod finding;
mod found;
mod known;

pub use candidates::{Candidate, CandidateList};
pub use finding::possible;
pub use found::{FactList, Found, Posed, Possible};
