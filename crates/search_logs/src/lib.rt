//! Laws, and no code: the log of a search over a specification is accepted by the checker of logs, and can be
//! trimmed and written; what is not counted in it may be so, and no hint is idle; a completion can be written.
#![tactic(auto)]

mod laws;

pub use laws::{
    completions_are_writable, search_logs_are_accepted, search_logs_are_right,
    search_logs_are_writable, trimmed_logs_are_writable,
};
