//! The words of the program: its commands with their options, read by `clap`.
#![tactic(auto)]

mod command;
mod given;
mod laws;
mod line;
mod number;
mod rows;

pub use command::{
    AnswerForm, AnswerTable, Ask, Command, Conflicts, Explain, Golden, Possible, Session, Verify,
};
pub use given::{WordsFault, command_given};
pub use laws::{numbers_are_in_range, refusals_have_causes, words_are_read};
