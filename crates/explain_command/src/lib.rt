//! The command `explain`: the items of a specification that a unit of the verdict on a question needs, or inconsistency does.
#![tactic(auto)]

mod explaining;
mod laws;
mod needed;
mod telling;

pub use explaining::explain_documents;
pub use laws::one_explanation;
