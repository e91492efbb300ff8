//! The answer to a question about a specification: a report that shows its verdict, or says that the budget is
//! spent.
#![tactic(auto)]

mod answers;
mod ask;
mod currents;
mod deciding;
mod fault;
mod goal;
mod pairs;
mod reporting;

pub use ask::{answer, answer_from};
pub use fault::AskFault;
