/// What stands in a cell of a record.
#[derive(Clone, Copy)]
pub(crate) enum Cell {
    /// The name of an item, by its entity and its number there.
    Item { entity: u32, row: u32 },
    /// The name of a view, by its entity and its number there.
    View { entity: u32, row: u32 },
    /// The name of an entity.
    Entity(u32),
    /// A number.
    Number(u32),
    /// The name of an attribute.
    Attribute(Attribute),
}

/// An attribute of items by which pairs of rows are ordered in a table.
#[derive(Clone, Copy)]
pub(crate) enum Attribute {
    /// The attribute whose order is given.
    B,
    /// The attribute whose order is asked about.
    C,
}
