//! Laws of axioms: each is true in every consistent completion, and the truth of a literal is decided.
#![tactic(auto)]

mod axiom;
mod truth;

pub use axiom::axioms_hold;
pub use truth::{literals_are_decided, literals_or_negations};
