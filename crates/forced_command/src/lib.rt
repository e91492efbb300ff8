//! The command `forced`: the orders of rows that a specification forces.
#![tactic(auto)]

mod forcing;
mod laws;

pub use forcing::forced_document;
pub use laws::one_listing;
