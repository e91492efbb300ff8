use currency_base::{AttrId, ItemList, RelId, RowId};

/// A claim on a current value: that of an attribute of a row's entity is the row's.
#[derive(Clone, Copy, PartialEq, Eq)]
pub struct Premise {
    pub rel: RelId,
    pub attr: AttrId,
    pub row: RowId,
}

/// Claims, atom by atom and place by place.
pub type PremiseList = ItemList<Premise>;
