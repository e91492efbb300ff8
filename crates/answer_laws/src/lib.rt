//! Laws of answers: whether a tuple is one is decided, and each completion has one current instance.
#![tactic(auto)]

mod laws;

pub use laws::{answers_are_decided, answers_in_are_decided, instances_exist};
