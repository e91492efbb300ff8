//! What both commands stand on that tell answers of a query as a table: the stages up to the query, and the records of tuples.
//!
//! `specs/Asked` has what is due, with the job of the command as a parameter, and `specs/Records` the records.
#![tactic(auto)]

mod asked;
mod records;

pub use asked::{AskedQuery, read_query};
pub use records::{head_record, tuple_record};
