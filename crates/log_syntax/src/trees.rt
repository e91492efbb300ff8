use currency_base::{AttrId, ItemList, RelId, RowId, Tuple, TupleList};
use refutation_log::{Log, StatementList, Step, Steps};

/// Lines of a text, counted from 1.
pub type LineList = ItemList<u32>;

/// A log as it was read: the log, and the lines on which its statements and its steps begin, in order.
#[derive(Drop)]
pub struct ReadLog {
    pub log: Log,
    pub statements: LineList,
    pub steps: LineList,
}

/// A statement as it is written: an answer has its tuple.
#[derive(Drop)]
pub enum StatementTree {
    /// `before N N N N`
    Before {
        rel: RelId,
        attr: AttrId,
        earlier: RowId,
        later: RowId,
    },
    /// `top N N N`
    Top {
        rel: RelId,
        attr: AttrId,
        row: RowId,
    },
    /// `last N N N`
    Last {
        rel: RelId,
        attr: AttrId,
        row: RowId,
    },
    /// `answer (VALUE, ..)`
    Answer {
        values: Tuple,
    },
}

/// A statement, and the line of the word `statement` before it.
#[derive(Drop)]
pub struct StatementOnLine {
    pub line: u32,
    pub statement: StatementTree,
}

/// A step, and the line of its first word.
#[derive(Drop)]
pub struct StepOnLine {
    pub line: u32,
    pub step: Step,
}

/// The statements that were read: the answers' tuples, the statements, which name them by their places, and
/// the statements' lines.
#[derive(Drop)]
pub struct Said {
    pub answers: TupleList,
    pub statements: StatementList,
    pub lines: LineList,
}

/// The steps that were read, and their lines.
#[derive(Drop)]
pub struct SaidSteps {
    pub steps: Steps,
    pub lines: LineList,
}

/// The numbers of a relation, of an attribute of it and of a row.
#[derive(Clone, Copy)]
pub struct Cell {
    pub rel: RelId,
    pub attr: AttrId,
    pub row: RowId,
}
