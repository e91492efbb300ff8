//! The language of reports: their trees, and the reading of their texts.
#![tactic(auto)]

mod attribute;
mod claim;
mod completion;
mod count;
mod ended_word;
mod items;
mod laws;
mod ranking;
mod read;
mod report;
mod tree;
mod verdict;

pub use laws::one_report;
pub use log_syntax::{LineList, ReadLog};
pub use read::read_report_tree;
pub use tree::{
    AnswerTree, AnswerTreeList, ClaimTree, CompletionTree, CompletionTreeList, CurrentTree,
    CurrentTreeList, RankingTree, RankingTreeList, ReportTree, VerdictTree, Version,
};
