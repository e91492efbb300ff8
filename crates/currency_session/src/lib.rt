//! Sessions: a specification that is edited and asked in turn, the reports that were given last, which are tried again
//! before a question is searched for, and a known consistent completion, from which a search begins;
//! one that an added pair or copied row broke is mended in the part that this is of.
#![tactic(auto)]

mod asking;
mod broken;
mod copying;
mod keeping;
mod knowing;
mod laws;
mod looks;
mod mending;
mod reply;
mod session;
mod start;

pub use laws::reports_are_kept;
pub use reply::Reply;
pub use session::Session;
