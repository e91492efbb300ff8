ghost use Rattle.std.specs.Prelude.{◌≡◌, ◌<◌, length, slice_get};

use crate::{EntId, ItemList, Name, RowId, Tuple};

/// A row of a relation: its name, the entity that it stands for, and one value per attribute.
#[derive(Drop)]
pub struct Row {
    pub name: Name,
    pub entity: EntId,
    pub values: Tuple,
}

impl ItemList<Row> {
    /// The row of an id.
    pub fn row(&self, id: RowId) -> &Row
        requires { id.0 < length self.now }
        ensures { slice_get self.now id.0 ≡ Some result.now }
    {
        self.get(id.0 as usize)
    }
}
