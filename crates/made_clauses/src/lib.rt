//! Clauses that are made from numbers, for tests and benchmarks of the search.
#![tactic(auto)]

mod families;
mod family;
mod source;
mod variables;

pub use families::{ordering, pigeons, random};
pub use family::{Family, Searched, search_with};
pub use source::Source;
pub use variables::{add, solver};
