//! The names of a specification's parts, each found again without a scan.
#![tactic(auto)]

mod named;
mod names;

pub use names::{RelationNames, SpecNames};
