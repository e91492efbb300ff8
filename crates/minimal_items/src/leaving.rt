ghost use Rattle.std.specs.Prelude.{◌≡◌, ◌+◌, ◌<◌, ◌∷◌, ◌++◌, true, [], length, slice_set, IfOk, OnOk};
ghost use Rattle.search_logs.specs.SearchLogs.{IsWithin};
ghost use Rattle.spec_items.specs.Items.{items_of};
ghost use Rattle.unit_questions.specs.Facts.{IsFactQuestion};
ghost use Rattle.minimal_items.specs.Among.{marked_items};
ghost use Rattle.minimal_items.specs.Trials.{AreReducedOrSpent, AreReducedUpTo};

use crate::trying::{Tried, try_marked};
use crate::{Needed, NeededList, Spent};
use currency_base::{ItemList, NoMemory};
use report_model::Report;
use solver_guides::Guides;
use spec_items::{Item, fewer_items};
use spec_model::{Completion, Question, Specification};
use std::alloc::Global;

/// Leaves out each marked item that the fact does not need, and lists those that it needs; or stops where the budget is spent.
pub(crate) fn leave_out_each(
    alloc: Global,
    spec: &Specification,
    question: &Question,
    items: &[Item],
    marks: &mut [bool],
    needed: &mut NeededList,
    budget: u64,
    guides: &mut Guides,
) -> Result<Option<Spent>, NoMemory>
    requires within { IsWithin spec.now }
    requires question { IsFactQuestion spec.now.relations question.now }
    requires items { items.now ≡ items_of spec.now }
    requires start { AreReducedUpTo spec.now question.now 0 marks.old needed.old }
    ensures { IfOk result (AreReducedOrSpent spec.now question.now budget (length items.now) marks.new needed.new) }
{
    for place in 0..items.len() {
        if let Some(spent) = leave_out(
            alloc, spec, question, items, place, marks, needed, budget, guides,
        )? {
            return Ok(Some(spent));
        }
    }
    Ok(None)
}

/// Leaves the item at this place out, if it is marked and the fact does not need it; lists it if it does.
fn leave_out(
    alloc: Global,
    spec: &Specification,
    question: &Question,
    items: &[Item],
    place: usize,
    marks: &mut [bool],
    needed: &mut NeededList,
    budget: u64,
    guides: &mut Guides,
) -> Result<Option<Spent>, NoMemory>
    requires within { IsWithin spec.now }
    requires question { IsFactQuestion spec.now.relations question.now }
    requires items { items.now ≡ items_of spec.now }
    requires place { place < length items.now }
    requires earlier { AreReducedUpTo spec.now question.now place marks.old needed.old }
    ensures { IfOk result (AreReducedOrSpent spec.now question.now budget (place + 1) marks.new needed.new) }
{
    fewer_items();
    if !marks[place] {
        return Ok(None);
    }
    marks[place] = false;
    match try_marked(alloc, spec, question, marks, budget, guides) {
        Ok(Tried::Holds) => Ok(None),
        Ok(Tried::Fails(without)) => {
            take_back(items[place], place, without, marks, needed)?;
            Ok(None)
        }
        Ok(Tried::Open(part, report)) => Ok(Some(spent_on(alloc, items, marks, part, report)?)),
        Err(NoMemory) => Err(NoMemory),
    }
}

/// Marks the item at this place again, and lists it as needed.
fn take_back(
    item: Item,
    place: usize,
    without: Completion,
    marks: &mut [bool],
    needed: &mut NeededList,
) -> Result<(), NoMemory>
    requires { place < length marks.old }
    ensures marks { marks.new ≡ slice_set marks.old place true }
    ensures needed { OnOk result (needed.new ≡ needed.old ++ record { item = item; without = without } ∷ []) }
{
    marks[place] = true;
    needed.push(Needed { item, without })
}

/// The part of these marked items, for which the budget is spent.
pub(crate) fn spent_on(
    alloc: Global,
    items: &[Item],
    marks: &[bool],
    part: Specification,
    report: Report,
) -> Result<Spent, NoMemory>
    requires { length marks.now ≡ length items.now }
    ensures { IfOk result (λ spent. spent ≡ record { items = marked_items items.now marks.now; part = part; report = report }) }
{
    match marked_list(alloc, items, marks) {
        Ok(items) => Ok(Spent {
            items,
            part,
            report,
        }),
        Err(NoMemory) => Err(NoMemory),
    }
}

/// The marked items.
fn marked_list(alloc: Global, items: &[Item], marks: &[bool]) -> Result<ItemList<Item>, NoMemory>
    requires { length marks.now ≡ length items.now }
    ensures { IfOk result (λ list. list ≡ marked_items items.now marks.now) }
{
    let mut list = ItemList::new(alloc);
    for place in 0..items.len() {
        put_marked(items[place], marks[place], &mut list)?;
    }
    Ok(list)
}

/// Puts an item into a list, if it is marked.
fn put_marked(item: Item, mark: bool, list: &mut ItemList<Item>) -> Result<(), NoMemory>
    ensures { OnOk result (list.new ≡ list.old ++ marked_items (item ∷ []) (mark ∷ [])) }
{
    if !mark {
        return Ok(());
    }
    list.push(item)
}
