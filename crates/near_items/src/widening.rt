//! Items that explain a fact over a part, as items of the whole with completions of the whole.

ghost use Rattle.std.specs.Prelude.{◌≡◌, ◌≤◌, ◌<◌, [], true, IfOk, IfSome, Some, length, slice_get};
ghost use Rattle.minimal_items.specs.Explanations.{IsExplanation, needed_items};
ghost use Rattle.part_widens.specs.Widened.{rules_among};
ghost use Rattle.spec_items.specs.Items.{items_of};
ghost use Rattle.spec_items.specs.Kept.{kept};
ghost use Rattle.spec_model.specs.Completion.{IsCompletion};
ghost use Rattle.spec_model.specs.Consistent.{IsConsistent};
ghost use Rattle.unit_questions.specs.Facts.{FactHolds};
ghost use Rattle.near_items.specs.Sites.{IsSite};
ghost use Rattle.near_items.specs.Steps.{AreWide, HaveCompletions, IsPutWide};

use crate::failing::joined_failing;
use crate::site::Site;
use crate::whole::whole_item;
use currency_base::NoMemory;
use minimal_items::{Needed, NeededList};
use part_widens::explanations_widen;
use spec_items::{Item, fewer_items, items};
use spec_model::Completion;
use std::alloc::Global;

/// An explanation over the part as one of the whole, its completions joined with this one; none, where that cannot be seen.
pub(crate) fn widen(
    alloc: Global,
    site: &Site<'_>,
    base: &Completion,
    narrow: &NeededList,
) -> Result<Option<NeededList>, NoMemory>
    requires site { IsSite site.now.spec.now site.now.places.now site.now.part.now site.now.question.now site.now.asks.now }
    requires narrow { IsExplanation site.now.part.now (FactHolds site.now.part.now.relations site.now.asks.now) narrow.now }
    requires base { IsConsistent (kept (rules_among (needed_items narrow.now)) site.now.spec.now) base.now }
    ensures { IfOk result (λ found. IfSome found (IsExplanation site.now.spec.now
        (FactHolds site.now.spec.now.relations site.now.question.now))) }
{
    explanations_widen();
    fewer_items();
    let list = items(alloc, site.spec)?;
    let mut wide = NeededList::new(alloc);
    match widen_each(alloc, site, base, narrow, list.as_slice(), &mut wide) {
        Ok(true) => Ok(Some(wide)),
        Ok(false) => Ok(None),
        Err(NoMemory) => Err(NoMemory),
    }
}

/// Puts in one needed item after the other; not all, where that cannot be seen of one.
fn widen_each(
    alloc: Global,
    site: &Site<'_>,
    base: &Completion,
    narrow: &NeededList,
    items: &[Item],
    wide: &mut NeededList,
) -> Result<bool, NoMemory>
    requires site { IsSite site.now.spec.now site.now.places.now site.now.part.now site.now.question.now site.now.asks.now }
    requires base { IsCompletion site.now.spec.now.relations base.now }
    requires narrow { HaveCompletions site.now.part.now.relations narrow.now }
    requires items { items.now ≡ items_of site.now.spec.now }
    requires none { wide.old ≡ [] }
    ensures { IfOk result (λ all. all ≡ true
        → AreWide site.now.spec.now site.now.places.now site.now.question.now base.now narrow.now wide.new) }
{
    let mut start = 0;
    for place in 0..narrow.len() {
        match widen_one(alloc, site, base, narrow.get(place), items, start, wide) {
            Ok(Some(bound)) => start = bound,
            Ok(None) => return Ok(false),
            Err(NoMemory) => return Err(NoMemory),
        }
    }
    Ok(true)
}

/// Puts in a needed item, which stands at one of the places from this one on. Answers from where on the next one is sought.
fn widen_one(
    alloc: Global,
    site: &Site<'_>,
    base: &Completion,
    one: &Needed,
    items: &[Item],
    start: usize,
    wide: &mut NeededList,
) -> Result<Option<usize>, NoMemory>
    requires site { IsSite site.now.spec.now site.now.places.now site.now.part.now site.now.question.now site.now.asks.now }
    requires base { IsCompletion site.now.spec.now.relations base.now }
    requires one { IsCompletion site.now.part.now.relations one.now.without }
    requires items { items.now ≡ items_of site.now.spec.now }
    ensures { IfOk result (λ bound. IfSome bound (IsPutWide site.now.spec.now site.now.places.now site.now.question.now
        base.now start one.now wide.old wide.new)) }
{
    let Some(item) = whole_item(site, one.item) else {
        return Ok(None);
    };
    let Some(place) = first_from(items, start, item) else {
        return Ok(None);
    };
    match joined_failing(alloc, site, base, &one.without) {
        Ok(Some(without)) => {
            wide.push(Needed { item, without })?;
            Ok(Some(place + 1))
        }
        Ok(None) => Ok(None),
        Err(NoMemory) => Err(NoMemory),
    }
}

/// The first place from a place on at which items have this one.
fn first_from(items: &[Item], start: usize, item: Item) -> Option<usize>
    ensures after { IfSome result (λ place. start ≤ place) }
    ensures within { IfSome result (λ place. place < length items.now) }
    ensures there { IfSome result (λ place. slice_get items.now place ≡ Some item) }
{
    for place in start..items.len() {
        if items[place] == item {
            return Some(place);
        }
    }
    None
}
