//! A solver by conflict-driven clause learning whose every learned clause follows, is new, and was paid for.
#![tactic(auto)]

mod budget;
mod decision;
mod found;
mod goal;
mod laws;
mod model;
mod search;
mod solver;

pub use budget::Budget;
pub use found::Found;
pub use laws::{counted_stay_new, whole_scope_gives_models};
pub use solver::Solver;
