//! The documents of a generated specification, of any size up to a thousand entities: the specification, its
//! tables, a table of pairs to ask about, and a question of each kind.
//!
//! `specs/Documents` says which documents there are, with each of their bytes.
#![tactic(auto)]

mod cell;
mod documents;
mod rows;
mod table;
mod text;

pub use documents::{rows_of, trial_documents};
pub use rows::MOST_ENTITIES;
