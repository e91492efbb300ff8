//! A first guess at a model: each list ranked so that the pairs which are known stand as they must.
#![tactic(auto)]

mod guess;
mod listed;
mod order;
mod ranking;
mod source;

pub use guess::start;
