//! The command `session`: edits and questions over one specification, one after another.
#![tactic(auto)]

mod done;
mod entry;
mod laws;
mod question;
mod reading;
mod running;
mod session;
mod telling;

pub use laws::one_session;
pub use session::session_documents;
