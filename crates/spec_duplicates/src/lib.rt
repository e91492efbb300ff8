//! Copies of what a specification holds: attributes, rows, names, rules, and copy functions.
#![tactic(auto)]

mod copies;
mod relation;
mod rule;

pub use copies::{or_no_memory, unmapped};
pub use relation::{copied_attrs, copied_names, copied_rows};
pub use rule::copied_rule;
