//! That some row of a list is last, and some value current: derived from the axioms on the list, step by step.
#![tactic(auto)]

mod derivation;
mod derive;
mod looks;
mod rows;

pub use derive::derived;
pub use looks::are_there;
pub use rows::RowList;
