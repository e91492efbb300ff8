//! The text that lists the forced pairs of a specification.
#![tactic(auto)]

mod listing;
mod text;
mod write;

pub use write::write_forced;
