use currency_base::{ItemList, Pair, RelId};
use query_model::Query;

/// A pair of rows that is asked about: is the value of the earlier row the older one, in the pair's
/// attribute of this relation?
#[derive(Clone, Copy, PartialEq, Eq)]
pub struct Asked {
    pub rel: RelId,
    pub pair: Pair,
}

/// Asked pairs, in the order in which they are asked.
pub type AskedList = ItemList<Asked>;

/// Relations, in the order in which they are asked about.
pub type RelList = ItemList<RelId>;

/// What is asked of a specification.
#[derive(Drop)]
pub enum Question {
    /// Is there a consistent completion?
    Consistent,
    /// Does each of these pairs hold in every consistent completion?
    Certain(AskedList),
    /// Are the current tuples of these relations the same in every consistent completion?
    Same(RelList),
    /// Which tuples are answers of this query over the current instance of every consistent completion?
    Answers(Query),
}
