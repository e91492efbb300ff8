//! Conflict analysis: from a clause whose literals are all false, a clause that follows by the reasons of the trail.
#![tactic(auto)]

mod analysis;
mod clauses;
mod conflicts;
mod learning;
mod levels;
mod marks;
mod reasons;
mod resolution;
mod resolving;
mod trial;
mod writing;

pub use analysis::Analysis;
