//! Denial constraints, called rules: what is said of all rows of one entity that are taken for a rule's
//! variables.
//!
//! The definition is that of Wenfei Fan, Floris Geerts and Jef Wijsen, "Determining the Currency of
//! Data", ACM Transactions on Database Systems 37(4), 2012, section 2.
#![tactic(auto)]

mod binding;
mod instance;
mod premises;
mod rule;

pub use binding::{Binding, MOST_VARS};
pub use instance::RuleInstance;
pub use premises::{MOST_PREDICATES, Premises};
pub use rule::{Conclusion, Operand, OrderAtom, Predicate, PredicateList, Rule, RuleList};
