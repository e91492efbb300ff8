use currency_base::{EntId, RelId};

/// A place of an atom, at an entity of the atom's relation. The first place is for the entity's name, and the others are for
/// the attributes.
#[derive(Clone, Copy)]
pub(crate) struct At {
    pub rel: RelId,
    pub ent: EntId,
    pub place: usize,
}
