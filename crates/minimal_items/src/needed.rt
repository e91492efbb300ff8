use currency_base::ItemList;
use spec_items::Item;
use spec_model::Completion;

/// An item that is needed, and a consistent completion without it in which the fact fails.
#[derive(Drop)]
pub struct Needed {
    pub item: Item,
    pub without: Completion,
}

/// Needed items, in the order of those of the specification.
pub type NeededList = ItemList<Needed>;
