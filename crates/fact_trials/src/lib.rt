//! Does the fact that a question asks for hold in every consistent completion, or in which does it fail?
#![tactic(auto)]

mod failing;
mod trial;

pub use currency_ask::{AskFault, answer};
pub use failing::has_answer;
pub use trial::{Trial, try_fact};
