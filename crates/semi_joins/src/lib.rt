//! Which rows of the relations of atoms can take part in a match: those that no atom beside them leaves out.
#![tactic(auto)]

mod alone;
mod joins;
mod kept;
mod keys;
mod links;
mod passes;

pub use kept::Kept;
pub use passes::{is_unmatched, kept_rows};
