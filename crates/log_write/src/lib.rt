//! Logs as texts in canonical spelling and spacing: the text of a log, which is read back as the log.
//!
//! `specs/Pieces` has the tokens that are written, one clause per rule, and `specs/Writable` says which logs
//! can be written.
#![tactic(auto)]

mod label;
mod laws;
mod many;
mod number;
mod statement;
mod step;
mod values;
mod write;

pub use laws::written_is_read;
pub use values::write_values;
pub use write::{write_log, write_log_into};
