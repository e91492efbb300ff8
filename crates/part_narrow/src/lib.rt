//! Each completion of a specification, narrowed to the rows of a part.
#![tactic(auto)]

mod laws;

pub use laws::narrows_exist;
