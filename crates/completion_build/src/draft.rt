ghost use Rattle.std.specs.Prelude.{◌≡◌, ◌<◌, [], OnOk, length, slice_index_or};
ghost use Rattle.spec_model.specs.Completion.{lists_of};
ghost use Rattle.completion_build.specs.Drafts.{rankings_with, cycles_with, built_of};

use crate::judging::Judged;
use crate::{Built, CycleList};
use currency_base::{AttrId, EntId, NoMemory, RelId};
use spec_model::Completion;

/// What is built of the lists so far.
#[derive(Drop)]
pub(crate) struct Draft {
    /// The lists that have an order.
    pub completion: Completion,
    /// A cycle of each of the others.
    pub cycles: CycleList,
}

impl Draft {
    /// Adds what is found of a list.
    pub(crate) fn put(
        &mut self,
        rel: RelId,
        attr: AttrId,
        ent: EntId,
        judged: Judged,
    ) -> Result<(), NoMemory>
        requires rel { rel.0 < length self.old.completion }
        requires attr { attr.0 < length (slice_index_or self.old.completion rel.0 []) }
        requires ent { ent.0 < length (lists_of self.old.completion rel.0 attr.0) }
        ensures completion { OnOk result (self.new.completion ≡ rankings_with self.old.completion rel.0 attr.0 ent.0 judged) }
        ensures cycles { OnOk result (self.new.cycles ≡ cycles_with self.old.cycles judged) }
    {
        match judged {
            Judged::Ordered(rows) => {
                self.completion.set(rel, attr, ent, rows);
                Ok(())
            }
            Judged::Round(cycle) => self.cycles.push(cycle),
        }
    }

    /// The completion, if there is no cycle.
    pub(crate) fn built(self) -> Built
        ensures { result ≡ built_of self.completion self.cycles }
    {
        let Draft { completion, cycles } = self;
        if cycles.len() == 0 {
            return Built::Whole(completion);
        }
        Built::Cyclic(cycles)
    }
}
