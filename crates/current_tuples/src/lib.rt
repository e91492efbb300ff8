//! Current values, and the current instance of a completion.
#![tactic(auto)]

mod instance;
mod value;

pub use instance::{current, one_current_instance};
pub use value::{last, last_row};
