//! Names of values: the first row of an entity that has a value names it.
#![tactic(auto)]

mod names;

pub use names::{ValueNames, first_rows, value_names};
