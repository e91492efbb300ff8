//! Names to ids: the query that a tree says of a specification.
#![tactic(auto)]

mod bind;
mod heads;
mod kinds;
mod known;
mod limits;
mod mismatches;
mod noted;
mod relations;
mod resolve;
mod variables;

pub use bind::bind_query;
