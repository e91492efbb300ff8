//! Specifications and their completions: what is asked about, and what the answers quantify over.
//!
//! The definitions are those of Wenfei Fan, Floris Geerts and Jef Wijsen, "Determining the Currency of
//! Data", ACM Transactions on Database Systems 37(4), 2012, sections 2 and 3.
#![tactic(auto)]

mod completion;
mod flaw;
mod instance;
mod question;
mod relation;
mod specification;

pub use completion::{AttributeRankings, Completion, RelationRankings, set_keeps_shape};
pub use copy_functions::{CopyFault, CopyList, CopyMap, Place, PlaceList};
pub use denial_rules::{Binding, Rule, RuleList};
pub use flaw::Flaw;
pub use instance::{Instance, TupleTable};
pub use partial_orders::Pairs;
pub use query_model::Query;
pub use question::{Asked, AskedList, Question, RelList};
pub use relation::{Attr, AttrList, Relation, RelationList};
pub use specification::{Specification, edits_are_undone};
