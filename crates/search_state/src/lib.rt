//! The state of a search: a log, its clauses in a watched arena, and a trail. What is done to it keeps what makes its
//! answers right.
#![tactic(auto)]

mod learning;
mod leaving;
mod orders;
mod search;
mod state;
mod steps;

pub use state::State;
