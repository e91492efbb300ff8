//! All clauses of a search, in one flat vector of literals, with watch lists that are threaded through them.
#![tactic(auto)]

mod arena;
mod clause;
mod clause_lits;
mod leaving;
mod watches;

pub use arena::Arena;
pub use clause::ClauseNo;
