ghost use Rattle.std.specs.Prelude.{◌<◌, ◌^◌, length, IfOk};
ghost use Rattle.entity_ties.specs.Labels.{AreCellLabels};
ghost use Rattle.entity_ties.specs.Numbers.{AreNumbered};

use crate::cells::Numbering;
use crate::classes::linked_labels;
use crate::links::links_of;
use crate::order::{Ordered, in_order};
use currency_base::NoMemory;
use spec_model::Specification;
use std::alloc::Global;

/// The part of each entity, by its number.
pub(crate) fn part_labels(
    alloc: Global,
    spec: &Specification,
    numbering: &Numbering,
) -> Result<Ordered, NoMemory>
    requires numbers { AreNumbered spec.now.relations (length spec.now.relations) numbering.now.firsts.items
        numbering.now.members.items }
    requires few { length numbering.now.members.items < 2 ^ 32 }
    ensures { IfOk result (λ o. AreCellLabels spec.now numbering.now.firsts.items numbering.now.members.items
        o.labels.items o.count) }
{
    let _relations = spec.relations();
    let links = links_of(alloc, spec, numbering)?;
    let labels = linked_labels(alloc, numbering.members.len(), &links)?;
    in_order(alloc, &labels)
}
