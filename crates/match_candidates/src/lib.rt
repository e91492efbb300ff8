//! The matches of a query that some completion of a specification may have, and what each claims of current values.
#![tactic(auto)]

mod at;
mod binding;
mod branching;
mod claims;
mod comparisons;
mod indexed_table;
mod listing;
mod lookups;
mod match_set;
mod place_index;
mod relation_table;
mod rest;
mod search;

pub use claims::{MatchClaims, claims_of};
pub use listing::{MatchList, matches};
