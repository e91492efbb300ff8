//! What the grammars of all languages share: names with their lines, the takers of fixed tokens, names,
//! strings, variables and constants, lists of a rule, and the reading of a whole text with the line of a
//! refusal.
//!
//! `specs/Grammar` has the words in which a grammar is a relation between trees and lists of tokens.
//! `specs/Reading` has the readers that the code follows, and `specs/Laws` what ties the two together.
#![tactic(auto)]

mod named;
mod names;
mod read;
mod refusal;
mod terms;
mod text;
mod tokens_at;

pub use named::{Const, Named, NamedList, NamedPair, NamedPairList};
pub use names::{NameRule, name, string};
pub use read::{Repeats, Rule, listed, many};
pub use refusal::Refusal;
pub use terms::{VariableRule, constant, is_variable, variable};
pub use text::read_text;
pub use tokens_at::{after_fixed, fixed, is_fixed, symbol, word};
