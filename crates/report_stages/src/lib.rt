//! The stage that reads a report, and judges whether it shows its verdict on a specification and a question.
#![tactic(auto)]

mod judging;
mod laws;
mod troubles;

pub use judging::judge_document;
pub use laws::one_judgement;
