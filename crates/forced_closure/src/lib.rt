//! The forced pairs of a specification: exactly those that given pairs, transitivity, rules and copy functions
//! force; and the laws that each of them holds in every consistent completion and that a loop of them leaves none.
#![tactic(auto)]

mod closure;
mod copied;
mod forced;
mod gathered;
mod given;
mod laws;
mod origin;
mod ruled;
mod subject;
mod table;
mod telling;

pub use closure::{Closure, close};
pub use forced::{Forced, Why};
pub use laws::{forced_pairs_hold, loops_rule_out};
