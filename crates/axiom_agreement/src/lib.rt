//! Laws, and no code: those who make the axioms of a specification and the one that judges them give each label
//! the same clause.
#![tactic(auto)]

mod laws;

pub use laws::{axioms_agree, literals_agree};
