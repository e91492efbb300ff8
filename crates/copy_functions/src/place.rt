use currency_base::{AttrId, ItemList};

/// An attribute of the target relation, and the attribute of the source relation that it is copied
/// from.
#[derive(Clone, Copy, Default, PartialEq, Eq)]
pub struct Place {
    pub target: AttrId,
    pub source: AttrId,
}

/// The places of a copy function, in the order of the text.
pub type PlaceList = ItemList<Place>;
