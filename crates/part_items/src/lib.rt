//! Laws of the items of a part: a part with some of its items is the part of the whole with those.
#![tactic(auto)]

mod laws;

pub use laws::items_are_parted;
