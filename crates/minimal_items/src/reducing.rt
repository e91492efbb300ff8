ghost use Rattle.std.specs.Prelude.{◌≡◌, length, IfOk};
ghost use Rattle.search_logs.specs.SearchLogs.{IsWithin};
ghost use Rattle.spec_items.specs.Items.{items_of};
ghost use Rattle.minimal_items.specs.Among.{marked_items};
ghost use Rattle.unit_questions.specs.Facts.{IsFactQuestion};
ghost use Rattle.minimal_items.specs.Reduced.{IsReduced};
ghost use Rattle.minimal_items.specs.Trials.{IsTrialWith};
ghost use Rattle.minimal_items.specs.declared.trying.Tried.TheVariants as tried;

use crate::NeededList;
use crate::leaving::{leave_out_each, spent_on};
use crate::trying::{Tried, try_marked};
use currency_base::{ItemList, NoMemory};
use report_model::Report;
use solver_guides::Guides;
use spec_items::{Item, items};
use spec_model::{Completion, Question, Specification};
use std::alloc::Global;

/// A part for which a budget is spent: its items, the specification with these alone, and the report that says so.
#[derive(Drop)]
pub struct Spent {
    pub items: ItemList<Item>,
    pub part: Specification,
    pub report: Report,
}

/// What becomes of a search for the items that a fact needs.
#[derive(Drop)]
pub enum Reduced {
    /// An explanation of the fact.
    Needs(NeededList),
    /// The fact fails in this completion, which is consistent with all items that were marked.
    Fails(Completion),
    /// The budget is spent on a part.
    Open(Spent),
}

/// Which of the marked items of a specification the fact of a question needs. One after the other is left out, and is needed
/// where the fact fails without it, in the completion that is found then. Each trial has the budget of clauses that may be
/// learned.
pub fn reduce(
    alloc: Global,
    spec: &Specification,
    question: &Question,
    marks: &[bool],
    budget: u64,
    guides: &mut Guides,
) -> Result<Reduced, NoMemory>
    requires within { IsWithin spec.now }
    requires question { IsFactQuestion spec.now.relations question.now }
    requires marks { length marks.now ≡ length (items_of spec.now) }
    ensures { IfOk result (IsReduced spec.now question.now (marked_items (items_of spec.now) marks.now) budget) }
{
    let list = items(alloc, spec)?;
    reduce_listed(
        alloc,
        spec,
        question,
        list.as_slice(),
        marks,
        budget,
        guides,
    )
}

/// The same, where the items are listed.
fn reduce_listed(
    alloc: Global,
    spec: &Specification,
    question: &Question,
    items: &[Item],
    marks: &[bool],
    budget: u64,
    guides: &mut Guides,
) -> Result<Reduced, NoMemory>
    requires within { IsWithin spec.now }
    requires question { IsFactQuestion spec.now.relations question.now }
    requires items { items.now ≡ items_of spec.now }
    requires marks { length marks.now ≡ length (items_of spec.now) }
    ensures { IfOk result (IsReduced spec.now question.now (marked_items (items_of spec.now) marks.now) budget) }
{
    match try_marked(alloc, spec, question, marks, budget, guides) {
        Ok(Tried::Holds) => reduce_held(alloc, spec, question, items, marks, budget, guides),
        Ok(Tried::Fails(completion)) => Ok(Reduced::Fails(completion)),
        Ok(Tried::Open(part, report)) => Ok(Reduced::Open(spent_on(
            alloc, items, marks, part, report,
        )?)),
        Err(NoMemory) => Err(NoMemory),
    }
}

/// The same, where the fact holds with the marked items.
fn reduce_held(
    alloc: Global,
    spec: &Specification,
    question: &Question,
    items: &[Item],
    marks: &[bool],
    budget: u64,
    guides: &mut Guides,
) -> Result<Reduced, NoMemory>
    requires within { IsWithin spec.now }
    requires question { IsFactQuestion spec.now.relations question.now }
    requires items { items.now ≡ items_of spec.now }
    requires marks { length marks.now ≡ length (items_of spec.now) }
    requires holds { IsTrialWith spec.now question.now (marked_items (items_of spec.now) marks.now) budget tried.Holds }
    ensures { IfOk result (IsReduced spec.now question.now (marked_items (items_of spec.now) marks.now) budget) }
{
    let mut left = marks.to_vec(alloc)?;
    let mut needed = NeededList::new(alloc);
    match leave_out_each(
        alloc,
        spec,
        question,
        items,
        &mut left,
        &mut needed,
        budget,
        guides,
    ) {
        Ok(None) => Ok(Reduced::Needs(needed)),
        Ok(Some(spent)) => Ok(Reduced::Open(spent)),
        Err(NoMemory) => Err(NoMemory),
    }
}
