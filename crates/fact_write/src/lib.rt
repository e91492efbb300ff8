//! The question for a fact as text in canonical spelling, and the text where a budget is spent on it.
//!
//! `specs/Pieces` has the tokens that are written, a clause for each kind of fact, and what each part of a query is written as.
//! `specs/Open` has the text where a budget is spent.
#![tactic(auto)]

mod atom;
mod fact;
mod open;
mod query;
mod read;

pub use fact::write_fact;
pub use open::open_text;
pub use read::{name_of, value_of};
