//! Verification: which reports show their verdict, and that a verdict that is shown is right.
#![tactic(auto)]

mod claim;
mod common;
mod completions;
mod fault;
mod items;
mod judge;
mod laws;
mod listed;
mod log;
mod needs;
mod shape;

pub use fault::{Missing, Unshown, VerifyFault};
pub use judge::verify;
pub use laws::{first_unshown_is_not_shown, first_unshown_is_one, shown_is_right};
