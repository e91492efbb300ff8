//! Guides that pick the literals that a search assumes, and the ring that they stand in.
#![tactic(auto)]

mod activity;
mod choices;
mod first_free;
mod guide;
mod keep_phase;
mod ring;
mod seeded;

pub use activity::Activity;
pub use first_free::FirstFree;
pub use guide::Guide;
pub use keep_phase::KeepPhase;
pub use ring::Guides;
pub use seeded::Seeded;
