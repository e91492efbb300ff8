use currency_base::{AttrId, EntId, ItemList, RelId};

/// A list: the rows of an entity in an attribute of a relation.
#[derive(Clone, Copy, PartialEq, Eq)]
pub struct ListId {
    pub rel: RelId,
    pub attr: AttrId,
    pub ent: EntId,
}

/// Lists, in the order in which they were met.
pub type ListIdList = ItemList<ListId>;
