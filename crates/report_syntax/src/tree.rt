use currency_base::{ItemList, Tuple};
use log_syntax::ReadLog;
use text_grammar::{Named, NamedList};

/// The version of a report's language. In a later completion of the second, a place that is not ranked has
/// the first completion's list.
#[derive(Clone, Copy, PartialEq, Eq)]
pub enum Version {
    First,
    Second,
}

/// A report as it is written. Each clause keeps the line of its first word.
#[derive(Drop)]
pub struct ReportTree {
    pub version: Version,
    pub verdict: VerdictTree,
    pub completions: CompletionTreeList,
    pub log: ReadLog,
}

/// `verdict CLAIM`, with the items that follow it
#[derive(Drop)]
pub struct VerdictTree {
    pub line: u32,
    pub claim: ClaimTree,
}

/// What a verdict claims.
#[derive(Drop)]
pub enum ClaimTree {
    /// `inconsistent`
    Inconsistent,
    /// `consistent`
    Consistent,
    /// `certain`
    Certain,
    /// `not certain RELATION.ATTRIBUTE: ROW < ROW`
    NotCertain {
        relation: Named,
        attr: Named,
        earlier: Named,
        later: Named,
    },
    /// `same`, with its current tuples
    Same(CurrentTreeList),
    /// `not same RELATION.ATTRIBUTE of ENTITY`
    NotSame {
        relation: Named,
        attr: Named,
        entity: Named,
    },
    /// `answers`, with its answers
    Answers(AnswerTreeList),
    /// `undecided NUMBER`
    Undecided(u64),
}

/// `current RELATION ENTITY (VALUE, ..)`
#[derive(Drop)]
pub struct CurrentTree {
    pub line: u32,
    pub relation: Named,
    pub entity: Named,
    pub values: Tuple,
}

/// Current tuples, in the order of the text.
pub type CurrentTreeList = ItemList<CurrentTree>;

/// `answer (VALUE, ..)`
#[derive(Drop)]
pub struct AnswerTree {
    pub line: u32,
    pub values: Tuple,
}

/// Answers, in the order of the text.
pub type AnswerTreeList = ItemList<AnswerTree>;

/// `completion` with its rankings
#[derive(Drop)]
pub struct CompletionTree {
    pub line: u32,
    pub rankings: RankingTreeList,
}

/// Completions, in the order of the text.
pub type CompletionTreeList = ItemList<CompletionTree>;

/// `ranking RELATION.ATTRIBUTE of ENTITY: ROW < ROW`, the oldest first
#[derive(Drop)]
pub struct RankingTree {
    pub line: u32,
    pub relation: Named,
    pub attr: Named,
    pub entity: Named,
    pub rows: NamedList,
}

/// Rankings, in the order of the text.
pub type RankingTreeList = ItemList<RankingTree>;
