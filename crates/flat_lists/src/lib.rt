//! Lists of lists that are kept flat: all items lie in one vector, one list after another.
#![tactic(auto)]

mod ascending;
mod lists;
mod spans;

pub use ascending::last_up_to;
pub use lists::FlatLists;
