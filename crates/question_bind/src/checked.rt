// Pairs that are checked.

ghost use Rattle.std.specs.Prelude.{◌≡◌, ◌<◌, length, All};
ghost use Rattle.bind_faults.specs.Faults.{all_of, IsDue};
ghost use Rattle.question_bind.specs.Steps.{HasAsManyPairs, checked_named, parts_with};

use crate::heads::Head;
use crate::pairs::PairLists;
use bind_faults::BindFault;
use currency_base::PairList;
use question_syntax::AskedTree;
use spec_model::Specification;
use std::alloc::Global;

/// The pairs of the parts, or the refusal of the first that is not of two different rows of one entity.
pub fn checked_in(
    alloc: Global,
    spec: &Specification,
    heads: &[Head],
    trees: &[AskedTree],
    lists: PairLists,
) -> Result<PairLists, BindFault>
    requires heads { All (λ h. h.rel < length spec.now.relations) heads.now }
    requires trees { length trees.now ≡ length heads.now }
    requires lists { length lists ≡ length heads.now }
    requires counts { All HasAsManyPairs (parts_with heads.now trees.now lists) }
    ensures { IsDue (all_of (checked_named spec.now.relations) (parts_with heads.now trees.now lists)) result }
{
    let mut checked = PairLists::new(alloc);
    for pairs in lists.into_items() {
        let place = checked.len();
        match checked_part(alloc, spec, &heads[place], &trees[place], pairs) {
            Ok(pairs) => {
                let Ok(()) = checked.push(pairs) else {
                    return Err(BindFault::NoMemory);
                };
            }
            Err(fault) => return Err(fault),
        }
    }
    Ok(checked)
}

/// The pairs of a part, unless one of them is not of two different rows of one entity.
fn checked_part(
    alloc: Global,
    spec: &Specification,
    head: &Head,
    tree: &AskedTree,
    pairs: PairList,
) -> Result<PairList, BindFault>
    requires head { head.now.rel < length spec.now.relations }
    requires counts { HasAsManyPairs (head.now, tree.now, pairs) }
    ensures { IsDue (checked_named spec.now.relations (head.now, tree.now, pairs)) result }
{
    let rows = spec.relations()[head.rel].rows.as_slice();
    match tree {
        AskedTree::Ordering(ordering) => {
            order_bind::checked(rows, ordering.pairs.as_slice(), pairs)
        }
        AskedTree::Table { document, .. } => {
            order_bind::tables::checked(alloc, &document.name, rows, pairs)
        }
    }
}
