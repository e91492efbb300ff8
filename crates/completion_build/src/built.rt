use currency_base::{AttrId, EntId, ItemList, RelId, RowId};
use spec_model::Completion;

/// A list whose pairs of rows go round, and three of its rows that do: each is put before the next, and the
/// third before the first.
#[derive(Clone, Copy, PartialEq, Eq)]
pub struct Cycle {
    pub rel: RelId,
    pub attr: AttrId,
    pub ent: EntId,
    pub first: RowId,
    pub second: RowId,
    pub third: RowId,
}

/// One cycle of each of several lists, in the order of relation, attribute and entity.
pub type CycleList = ItemList<Cycle>;

/// What an assignment says of the order of the rows.
#[derive(Drop)]
pub enum Built {
    /// A completion.
    Whole(Completion),
    /// No completion: these lists have cycles, and no others.
    Cyclic(CycleList),
}
