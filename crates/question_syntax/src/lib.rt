//! The language of questions: their trees, and the reading of their texts.
#![tactic(auto)]

mod asked;
mod laws;
mod question;
mod read;
mod trees;

pub use laws::one_question;
pub use query_syntax::{
    AtomTree, DisjunctTree, DisjunctTreeList, PartTree, PartTreeList, PlaceTree, PlaceTreeList,
    QueryTree, TestTermTree, TestTree,
};
pub use question::QuestionRule;
pub use read::read_question;
pub use text_tokens::TextFault;
pub use trees::{AskedTree, AskedTreeList, QuestionTree};
