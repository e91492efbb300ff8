//! Specifications that are edited in place, within their limits.
//!
//! `specs/Edits` says what an edit makes of a specification, and why it is refused.
#![tactic(auto)]

mod edit;
mod fault;
mod given;
mod laws;
mod mapped;
mod partners;
mod rules;
mod spec;

pub use edit::Edit;
pub use fault::EditFault;
pub use laws::shapes_are_kept;
pub use spec::EditedSpec;
