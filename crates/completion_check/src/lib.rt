//! The check of a completion: is it consistent, and if not, what does it fail first? Does it satisfy a rule?
#![tactic(auto)]

mod broken;
mod check;
mod copies;
mod copy_search;
mod copy_trial;
mod marks;
mod one_rule;
mod relations;
mod row_places;
mod scratch;
mod search;
mod trial;

pub use check::{check_completion, first_flaw_is_one, flaw_rules_out};
pub use one_rule::satisfies_rule;
pub use scratch::CheckScratch;
