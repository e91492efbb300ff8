//! How a disjunct of a query is searched: which variables have one value by its comparisons, whether these can
//! hold at all, and in which order its atoms are taken.
#![tactic(auto)]

mod atoms;
mod conditions;
mod equalities;
mod given;
mod plan;
mod standing;
mod standings;

pub use conditions::Conditions;
pub use equalities::Equality;
pub use plan::{LookedUp, PlannedDisjunct, Step};
