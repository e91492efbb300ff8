//! Golden records: for each entity and attribute of a relation the value that is current in every consistent completion, or
//! that two values are possible.
#![tactic(auto)]

mod facts;
mod field;
mod finding;
mod records;
mod relations;

pub use field::{Field, FieldList, FieldTable, Golden, Posed};
pub use finding::golden;
