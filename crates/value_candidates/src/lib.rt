//! The values that entities of relations may have, each named by a claim on a current value.
#![tactic(auto)]

mod asked;
mod listing;
mod ordering;

pub use listing::value_claims;
