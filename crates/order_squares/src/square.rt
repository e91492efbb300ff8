use currency_base::{AttrId, EntId, RelId};

/// An attribute of a relation and an entity: the square of the pairs of the entity's rows.
#[derive(Clone, Copy, PartialEq, Eq)]
pub struct Square {
    pub rel: RelId,
    pub attr: AttrId,
    pub ent: EntId,
}
