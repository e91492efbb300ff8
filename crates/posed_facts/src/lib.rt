//! Facts about completions (that a row comes before another, that values are current or not), the questions that ask for
//! them, and whether they hold in a completion.
#![tactic(auto)]

mod asking;
mod atom;
mod fact;
mod holding;
mod laws;
mod read;

pub use asking::fact_question;
pub use fact::Fact;
pub use holding::holds_in;
pub use laws::facts_are_asked;
