//! The command `verify`: whether a report shows its verdict on a specification and a question.
#![tactic(auto)]

mod laws;
mod text;
mod verifying;

pub use laws::one_verdict;
pub use verifying::verified;
