//! The specification that statements say so far: it grows by a relation, a rule or a copy function at a time, within
//! limits.
#![tactic(auto)]

mod bound;
mod copy;
mod end;
mod laws;
mod relation;
mod rule;

pub use bound::Bound;
pub use copy::add_copy;
pub use end::within_limits;
pub use laws::is_specification;
pub use relation::add_relation;
pub use rule::add_rule;
