//! Completions that stay consistent over edits of their specification.
#![tactic(auto)]

mod breaks;
mod copies;
mod looks;
mod mapped;
mod pairs;
mod rules;
mod stays;

pub use breaks::breaks_given;
pub use copies::copied;
pub use looks::is_consistent;
pub use stays::stays_consistent;
