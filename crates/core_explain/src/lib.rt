//! Why a thing is certain: the given pairs, rules and copied rows that suffice for it, each of which is needed.
#![tactic(auto)]

mod explaining;

pub use explaining::{Explained, explain};
