//! Writing texts of the languages in their canonical spelling and spacing.
//!
//! `specs/Spelling` has the spelling of names and values, `specs/Pieces` the text of several tokens, and
//! `specs/Written` the words of the law that the tokens of a written text are the pieces it was written from.
#![tactic(auto)]

mod laws;
mod spacing;
mod spelling;
mod writer;

pub use laws::{
    name_is_piece, name_is_read, pieces_are_tokens, string_is_piece, string_is_read,
    value_is_piece, value_is_read,
};
pub use spelling::{write_name, write_value};
pub use writer::TextWriter;
