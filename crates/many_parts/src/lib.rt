//! Laws of many parts at once: what holds of a specification that is cut into parts which share no entity and together have all.
//!
//! No code and no search: the definitions are those of `spec_model` and `part_laws`.
#![tactic(auto)]

mod laws;

pub use laws::{parts_are_consistent, parts_extend, parts_keep_pairs, parts_keep_values};
