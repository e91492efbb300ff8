//! A search over the statements of a specification, in which the axioms on three rows come in list by list, where
//! a list goes round.
#![tactic(auto)]

mod bringing;
mod finding;
mod lasting;
mod linked;
mod matching;
mod opening;
mod ordering;
mod outcome;
mod parting;
mod partwise;
mod progress;
mod rounds;
mod search;
mod subject;
mod telling;
mod tying;
mod when;

pub use outcome::Outcome;
pub use search::Search;
pub use when::When;
