//! The checker of logs: it accepts a log exactly where each step is an axiom of the specification or
//! follows from earlier steps with its hints.
//!
//! It shares nothing with a search: it stands on specifications, logs, and the axioms as they are defined.
#![tactic(auto)]

mod checked;
mod checker;
mod fault;
mod judge;
mod laws;
mod numbered;

pub use checked::Checked;
pub use checker::check;
pub use fault::LogFault;
pub use laws::one_verdict_on_a_log;
pub use numbered::is_numbered;
