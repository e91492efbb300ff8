//! Specifications as texts in canonical spelling and spacing: the text of a tree, which is read back as the
//! same tree, its lines aside.
#![tactic(auto)]

mod copy;
mod laws;
mod listed;
mod ordering;
mod relation;
mod rule;
mod statement;

pub use laws::written_is_read;
pub use statement::write_spec;
