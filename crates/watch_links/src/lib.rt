//! Watch lists whose slots are linked one way: a slot joins a list in constant time, and is cut out behind a
//! known one. Contracts see the lists themselves.
#![tactic(auto)]

mod links;
mod writes;

pub use links::WatchLinks;
