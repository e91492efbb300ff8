//! What a match of a query claims of current values, and which tuple it makes an answer.
#![tactic(auto)]

mod atom;
mod comparisons;
mod head;
mod laws;
mod place;
mod premise;

pub use atom::atom_premises;
pub use comparisons::comparisons_hold;
pub use head::head_tuple;
pub use laws::premises_make_matches;
pub use premise::{Premise, PremiseList};
