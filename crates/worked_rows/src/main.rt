//! Rows over whole documents: what the program says of specifications, questions and reports, and what it refuses.
//!
//! Most are transcripts; what needs more than text is a function. Beside them, what no contract and no text says of parts: which
//! lists are linked, which variables stand with which part, first guesses at models, how a specification is written, and which
//! kept report is a session's reply. They are one crate, since a crate of tests begins with a hundred processor seconds of
//! reading what it stands on.
#![tactic(auto)]

#[cfg(test)]
mod answers;
#[cfg(test)]
mod asked;
#[cfg(test)]
mod briefs;
#[cfg(test)]
mod budgets;
#[cfg(test)]
mod bytes;
#[cfg(test)]
mod calls;
#[cfg(test)]
mod cases;
#[cfg(test)]
mod claims;
#[cfg(test)]
mod conflicts;
#[cfg(test)]
mod copies;
#[cfg(test)]
mod divided;
#[cfg(test)]
mod documents;
#[cfg(test)]
mod dropped;
#[cfg(test)]
mod explained;
#[cfg(test)]
mod faults;
#[cfg(test)]
mod forced;
#[cfg(test)]
mod forged;
#[cfg(test)]
mod golden;
#[cfg(test)]
mod guessed;
#[cfg(test)]
mod guide_kinds;
#[cfg(test)]
mod guided;
#[cfg(test)]
mod hints;
#[cfg(test)]
mod hostile;
#[cfg(test)]
mod joins;
#[cfg(test)]
mod labels;
#[cfg(test)]
mod lasts;
#[cfg(test)]
mod limits;
#[cfg(test)]
mod linked;
#[cfg(test)]
mod logs;
#[cfg(test)]
mod outside;
#[cfg(test)]
mod parted;
#[cfg(test)]
mod possible;
#[cfg(test)]
mod queries;
#[cfg(test)]
mod questions;
#[cfg(test)]
mod refused;
#[cfg(test)]
mod rings;
#[cfg(test)]
mod rules;
#[cfg(test)]
mod runs;
#[cfg(test)]
mod sessions;
#[cfg(test)]
mod sources;
#[cfg(test)]
mod spelling;
#[cfg(test)]
mod steered;
#[cfg(test)]
mod steered_rows;
#[cfg(test)]
mod tables;
#[cfg(test)]
mod transcript;
#[cfg(test)]
mod trials;
#[cfg(test)]
mod unread;
#[cfg(test)]
mod values;
#[cfg(test)]
mod verdicts;
#[cfg(test)]
mod verify;
#[cfg(test)]
mod written;
#[cfg(test)]
mod wrong_ends;
#[cfg(test)]
mod wrong_guides;

// The crate is a program, since the gate takes longer for a library the more ways lead down from it; all of it is tests.
fn main() {}
