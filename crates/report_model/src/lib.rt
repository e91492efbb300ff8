//! Reports: what is claimed of a specification, and what shows it.
#![tactic(auto)]

mod report;
mod verdict;

pub use report::{CompletionList, Part, Report};
pub use verdict::{Current, CurrentList, Verdict, VerdictKind};
