use currency_base::ItemList;
use current_claims::CurrentRow;
use spec_model::Asked;

/// What is decided: does it hold in every consistent completion?
#[derive(Clone, Copy, PartialEq, Eq)]
pub(crate) enum Goal {
    /// An asked pair holds.
    Pair(Asked),
    /// The value of a row is the current one of its entity.
    Current(CurrentRow),
    /// The tuple at a place of the log's answers is an answer of the query.
    Answer(u32),
}

/// Goals, in the order in which they are decided.
pub(crate) type GoalList = ItemList<Goal>;
