//! What the units of a log say, so that a claim is looked up without a scan of the log.
#![tactic(auto)]

mod answers;
mod index;
mod pairs;
mod rows;
mod said;
mod units;

pub use units::Units;
