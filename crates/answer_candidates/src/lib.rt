//! Candidates for certain answers: the answers of a query over one completion, and which of them are answers over each completion
//! that is listed.
#![tactic(auto)]

mod candidates;
mod left;
mod marks;

pub use candidates::{CandidateFault, Candidates};
pub use left::{PlaceList, left_are_common};
