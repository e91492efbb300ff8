use currency_base::{AttrId, ItemList, RelId, RowId};

/// What a variable of a log says of a completion. Statements are ordered by kind, in the order in which the
/// kinds stand here, and then by their numbers in turn.
#[derive(Clone, Copy, PartialEq, Eq, PartialOrd, Ord)]
pub enum Statement {
    /// One row stands before another.
    Before {
        rel: RelId,
        attr: AttrId,
        earlier: RowId,
        later: RowId,
    },
    /// A row stands last among the rows of its entity.
    Top {
        rel: RelId,
        attr: AttrId,
        row: RowId,
    },
    /// The current value of a row's entity is the row's value.
    Last {
        rel: RelId,
        attr: AttrId,
        row: RowId,
    },
    /// The tuple at this place of the log's answers is an answer over the current instance.
    Answer {
        tuple: u32,
    },
}

/// Statements; the place of a statement is its variable.
pub type StatementList = ItemList<Statement>;
