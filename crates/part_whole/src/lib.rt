//! A law: the part that has all entities of a specification is the specification.
#![tactic(auto)]

mod laws;

pub use laws::whole_parts;
