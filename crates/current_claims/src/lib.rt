//! What is claimed of the current tuples of asked relations: their values in a completion, and where two completions
//! differ.
#![tactic(auto)]

mod claims;
mod difference;

pub use claims::{Claims, CurrentRow, CurrentRowList, claims_of};
pub use difference::{CurrentPlace, first_difference};
