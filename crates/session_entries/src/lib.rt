//! Entries of editing scripts: an entry is bound to an edit of a specification, or refused, and names are kept true of what is
//! edited.
//!
//! `specs/Entries` says what an entry makes of a specification, and why it is refused. Questions are bound elsewhere.
#![tactic(auto)]

mod bind;
mod copied;
mod fault;
mod given;
mod names;
mod withdrawn;

pub use bind::bind_edit;
pub use fault::{EntryFault, fault_of_edit};
pub use names::{NameChange, change_of, rename};
