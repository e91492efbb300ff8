//! What the goals of a log need of it, renumbered.
//!
//! Goals are steps. They need the steps that they reach by hints, the statements whose variables stand in
//! one of these, and the answers that such statements name. Places are marked in one pass from the last step
//! to the first, since hints are earlier steps; then each list is copied with the places that are kept.
#![tactic(auto)]

mod copies;
mod laws;
mod marks;
mod needs;
mod numbering;
mod place;
mod trimming;

pub use laws::trimmed_follows;
pub use place::is_in_place;
pub use trimming::{Trimmed, trim};
