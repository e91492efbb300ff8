//! The tuples that a query has as answers over the current instance of some consistent completion.
//!
//! They are the heads of those matches that hold in some consistent completion (`possible_values`), each once and ascending.
#![tactic(auto)]

mod among;
mod answers;
mod distinct;
mod heads;

pub use among::is_among;
pub use answers::possible_answers;
