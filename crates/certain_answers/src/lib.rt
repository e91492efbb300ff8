//! Decides which candidates for certain answers are answers in every consistent completion.
#![tactic(auto)]

mod aiming;
mod deciding;
mod decisions;
mod lists;
mod matched;
mod matches;
mod settled;
mod starting;
mod violated;
mod writable;

pub use deciding::decide_answer;
pub use decisions::{Decision, DecisionList, Decisions, decide_left, note};
pub use matches::{MatchList, bring_matches, first_matches};
pub use starting::{discard, relations_of, search_for};
