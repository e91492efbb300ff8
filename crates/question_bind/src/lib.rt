//! Binding of questions: a question's tree and the tables that it names become a question on a
//! specification.
#![tactic(auto)]

mod answers;
mod asked;
mod bind;
mod certain;
mod checked;
mod group;
mod heads;
mod laws;
mod pairs;
mod records;
mod same;
mod tables;

pub use bind::bind_question;
pub use laws::one_bound_question;
