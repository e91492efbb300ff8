//! The pairs of rows of one entity of a specification as the cells of squares: a square for each relation, attribute
//! and entity, with a row and a column for each of the entity's rows.
#![tactic(auto)]

mod bases;
mod groups;
mod listing;
mod square;
mod squares;

pub use square::Square;
pub use squares::Squares;
