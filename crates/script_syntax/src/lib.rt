//! The language of scripts of editing sessions: their trees, and the reading of their texts.
//!
//! `specs/Grammar` says which tokens spell a script. `specs/Reading` has the readers that the code follows,
//! and `proofs/Rules` ties the two together.
#![tactic(auto)]

mod change;
mod entry;
mod laws;
mod read;
mod trees;

pub use laws::one_script;
pub use read::read_script;
pub use text_tokens::TextFault;
pub use trees::{Entry, EntryList, EntryTree};
