//! A specification within its limits has few enough statements that each has a literal.
#![tactic(auto)]

mod few;
mod within;

pub use few::statements_are_few;
pub use within::number;
