//! The languages of specifications and orderings: their trees, and the reading of their texts.
#![tactic(auto)]

mod attr;
mod laws;
mod ordering;
mod read;
mod relation;
mod statement;
mod trees;

pub use copy_syntax::{CopyTree, Mappings};
pub use laws::{one_ordering, one_specification};
pub use ordering::OrderingRule;
pub use read::{read_ordering, read_spec};
pub use rule_syntax::{
    ConclusionTree, OrderAtomTree, PredicateTree, PredicateTreeList, RuleTree, TermTree,
};
pub use text_grammar::{Const, Named, NamedList, NamedPair, NamedPairList};
pub use text_tokens::{TextFault, Token, TokenKind, TokenList, tokens};
pub use trees::{AttrTree, AttrTreeList, OrderingTree, SpecTree, StatementTree, StatementTreeList};
