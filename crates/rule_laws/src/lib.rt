//! Laws on rules: what the instances of a rule say of a completion.
#![tactic(auto)]

mod satisfied;

pub use satisfied::satisfied_by_instances;
