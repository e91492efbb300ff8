//! The question for a unit of a verdict: for one of the claims that it makes of every consistent completion.
#![tactic(auto)]

mod answer;
mod asking;
mod given;
mod laws;
mod value;

pub use asking::unit_question;
pub use laws::claims_are_asked;
