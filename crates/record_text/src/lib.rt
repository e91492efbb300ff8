//! The text of records as comma-separated values.
//!
//! `specs/Text` has the text of records, by the rules of the crate `csv`, `specs/Fields` what a value is as a field,
//! and `specs/Laws` the law that a reader of tables reads the records again.
#![tactic(auto)]

mod fields;
mod laws;
mod write;

pub use fields::{bytes_of, value_bytes};
pub use laws::records_read_back;
pub use write::{Record, RecordList, records_text};
