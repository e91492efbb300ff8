//! Laws of parts: what a completion of the rows of some entities, closed under copied rows, says of the whole specification.
//!
//! No code and no search: the definitions are those of `spec_model`.
#![tactic(auto)]

mod laws;

pub use laws::{parts_join, parts_keep_facts, parts_narrow};
