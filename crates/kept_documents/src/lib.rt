//! A shelf that reads no document twice.
#![tactic(auto)]

mod shelf;

pub use shelf::KeptShelf;

#[cfg(test)]
mod tests;
