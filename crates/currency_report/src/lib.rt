//! The reading of reports: the text of a report, and the report that it says of a specification.
#![tactic(auto)]

mod claim;
mod complete;
mod lines;
mod log;
mod place;
mod rank;
mod read;
mod report;
mod said;

pub use read::read_report;
pub use report::{Lines, ReadReport, ReportFault};
