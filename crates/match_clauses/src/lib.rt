//! The literals of the axiom of a match.
#![tactic(auto)]

mod claims;
mod lits;
mod source;

pub use lits::{answer_lit, match_lits};
