//! Replaying a log: a clause is added exactly where it follows from the earlier ones with its hints.
//!
//! The literals of the clause are taken to be false. The hints are gone through in order, and each but the
//! last may leave at most one of its literals open, whose negation is then false too. Of the last hint all
//! literals have to be false.
#![tactic(auto)]

mod clause_state;
mod clauses;
mod fault;
mod laws;
mod marks;
mod replay;

pub use fault::StepFault;
pub use laws::one_step_end;
pub use replay::Replay;
