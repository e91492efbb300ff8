ghost use Rattle.std.specs.Prelude.{◌≡◌, ◌<◌, length};
ghost use Rattle.part_laws.specs.Parts.{rows_in, entities_in};

use currency_base::{EntId, EntList, ItemList, RelId, RowId, RowList};
use std::marker::Model;

/// The rows and the entities of a part, per relation, by their numbers in the whole specification. The number of one in the part
/// is its place.
#[derive(Drop)]
pub struct Places {
    rows: ItemList<RowList>,
    entities: ItemList<EntList>,
}

impl Model for Places {
    ghost use Rattle.part_laws.specs.Parts.{Places};

    ghost Value = { Places };

    ghost view = { λ p. record { rows = p.rows; entities = p.entities } };
}

impl Places {
    /// These rows and these entities.
    pub fn new(rows: ItemList<RowList>, entities: ItemList<EntList>) -> Places
        ensures { result ≡ record { rows = rows; entities = entities } }
    {
        Places { rows, entities }
    }

    /// The rows of a relation that the part has.
    pub fn rows(&self, rel: RelId) -> &[RowId]
        requires { rel.0 < length self.now.rows }
        ensures { result.now ≡ rows_in self.now rel.0 }
    {
        self.rows.get(rel.0 as usize).as_slice()
    }

    /// The entities of a relation that the part has.
    pub fn entities(&self, rel: RelId) -> &[EntId]
        requires { rel.0 < length self.now.entities }
        ensures { result.now ≡ entities_in self.now rel.0 }
    {
        self.entities.get(rel.0 as usize).as_slice()
    }
}
