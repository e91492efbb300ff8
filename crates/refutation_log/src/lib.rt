//! Logs of derivations: what their literals say, their steps, and when a step follows from earlier ones.
//!
//! A log is a list of statements and a list of steps. A literal is a statement or its negation, a clause
//! a set of literals. A step is an axiom of the specification, under a label that names it, or a clause
//! that follows from the clauses of earlier steps, which its hints name.
#![tactic(auto)]

mod log;
mod statement;
mod step;
mod steps;

pub use log::Log;
pub use statement::{Statement, StatementList};
pub use step::{HintList, Label, LabelRef, Step, StepRef};
pub use steps::Steps;
