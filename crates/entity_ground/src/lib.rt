//! The grounds of a specification: for which rows its rules have an instance, and which rows are copied
//! together.
#![tactic(auto)]

mod copies;
mod grounds;
mod index;
mod lookup;
mod plain;
mod relations;
mod rules;
mod search;

pub use copied_pairs::{CopiedPair, CopiedPairList};
pub use grounds::{Grounds, instances};
pub use plain::plain_grounds;
