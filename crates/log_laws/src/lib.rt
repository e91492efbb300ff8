//! Laws on logs: what follows is true, and a search that is cut off has few steps to count.
#![tactic(auto)]

mod few;
mod soundness;

pub use few::counted_steps_are_few;
pub use soundness::{following_is_sound, logs_are_sound};
