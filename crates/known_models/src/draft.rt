ghost use Rattle.std.specs.Prelude.{◌≡◌, OnOk};
ghost use Rattle.completion_build.specs.Drafts.{cycles_with};
ghost use Rattle.known_models.specs.Ranked.{lists_with};

use completion_build::{CycleList, Judged};
use currency_base::{AttrId, EntId, ItemList, NoMemory, RelId, RowList};

/// The rows of an entity in an attribute, in their order.
#[derive(Drop)]
pub(crate) struct RankedList {
    pub rel: RelId,
    pub attr: AttrId,
    pub ent: EntId,
    pub rows: RowList,
}

/// What was found of lists.
#[derive(Drop)]
pub(crate) struct Draft {
    /// The lists that have an order.
    pub lists: ItemList<RankedList>,
    /// A cycle of each of the others.
    pub cycles: CycleList,
}

impl Draft {
    /// Adds what was found of a list.
    pub(crate) fn put(
        &mut self,
        rel: RelId,
        attr: AttrId,
        ent: EntId,
        judged: Judged,
    ) -> Result<(), NoMemory>
        ensures lists { OnOk result (self.new.lists ≡ lists_with self.old.lists rel attr ent judged) }
        ensures cycles { OnOk result (self.new.cycles ≡ cycles_with self.old.cycles judged) }
    {
        match judged {
            Judged::Ordered(rows) => self.lists.push(RankedList {
                rel,
                attr,
                ent,
                rows,
            }),
            Judged::Round(cycle) => self.cycles.push(cycle),
        }
    }
}
