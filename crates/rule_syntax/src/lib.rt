//! The language of rules: the trees of `rule` statements, and their reading.
//!
//! `specs/Grammar` says which tokens spell a rule. `specs/Reading` has the readers that the code follows,
//! and `proofs/Rules` ties the two together for the language above.
#![tactic(auto)]

mod atom;
mod predicate;
mod rule;
mod term;
mod trees;

pub use rule::RuleRule;
pub use term::cmp;
pub use trees::{
    ConclusionTree, OrderAtomTree, PredicateTree, PredicateTreeList, RuleTree, TermTree,
};
