//! From an assignment of the pairs of rows to the completion that it says, or to the lists in which it goes
//! round.
#![tactic(auto)]

mod built;
mod counts;
mod cycle;
mod draft;
mod judging;
mod order;
mod ranking;
mod source;
mod tournament;

pub use built::{Built, Cycle, CycleList};
pub use judging::Judged;
pub use ranking::{judge_list, rank};
