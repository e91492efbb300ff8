//! The items that a fact needs which holds in every consistent completion.

ghost use Rattle.std.specs.Prelude.{◌≡◌, IfOk, option_map};
ghost use Rattle.report_verify.specs.Right.{EachConsistent};
ghost use Rattle.search_logs.specs.SearchLogs.{IsWithin};
ghost use Rattle.spec_items.specs.Items.{items_of};
ghost use Rattle.unit_questions.specs.Facts.{FactHolds, IsFactQuestion};
ghost use Rattle.near_items.specs.Sought.{IsBase, IsSought};

use crate::named::{all, named};
use crate::near::near;
use currency_base::NoMemory;
use minimal_items::{NeededList, Reduced, Spent, reduce};
use refutation_log::Log;
use solver_guides::Guides;
use spec_items::{Item, all_items, items};
use spec_model::{Completion, Question, Specification};
use std::alloc::Global;

/// What is found of the items that a fact needs.
#[derive(Drop)]
pub enum Sought {
    /// An explanation of the fact.
    Needs(NeededList),
    /// The budget is spent on a part.
    Open(Spent),
}

/// The items that the fact of a question needs: sought over the part that a derivation of it speaks of, or, where that shows
/// nothing, among those items that the derivation names, or among all. A consistent completion is lent, where there is one.
/// Each question that is put on the way has the budget of clauses that may be learned.
pub fn seek(
    alloc: Global,
    spec: &Specification,
    question: &Question,
    log: &Log,
    base: Option<&Completion>,
    budget: u64,
    guides: &mut Guides,
) -> Result<Sought, NoMemory>
    requires within { IsWithin spec.now }
    requires question { IsFactQuestion spec.now.relations question.now }
    requires holds { EachConsistent spec.now (FactHolds spec.now.relations question.now) }
    requires base { IsBase spec.now (option_map (λ c. c.now) base) }
    ensures { IfOk result (IsSought spec.now question.now budget) }
{
    match near(alloc, spec, question, log, base, budget, guides) {
        Ok(Some(needed)) => Ok(Sought::Needs(needed)),
        Ok(None) => seek_whole(alloc, spec, question, log, budget, guides),
        Err(NoMemory) => Err(NoMemory),
    }
}

/// The same over the whole.
fn seek_whole(
    alloc: Global,
    spec: &Specification,
    question: &Question,
    log: &Log,
    budget: u64,
    guides: &mut Guides,
) -> Result<Sought, NoMemory>
    requires within { IsWithin spec.now }
    requires question { IsFactQuestion spec.now.relations question.now }
    requires holds { EachConsistent spec.now (FactHolds spec.now.relations question.now) }
    ensures { IfOk result (IsSought spec.now question.now budget) }
{
    let list = items(alloc, spec)?;
    seek_named(alloc, spec, question, list.as_slice(), log, budget, guides)
}

/// The same, where the items are listed.
fn seek_named(
    alloc: Global,
    spec: &Specification,
    question: &Question,
    items: &[Item],
    log: &Log,
    budget: u64,
    guides: &mut Guides,
) -> Result<Sought, NoMemory>
    requires within { IsWithin spec.now }
    requires question { IsFactQuestion spec.now.relations question.now }
    requires holds { EachConsistent spec.now (FactHolds spec.now.relations question.now) }
    requires items { items.now ≡ items_of spec.now }
    ensures { IfOk result (IsSought spec.now question.now budget) }
{
    let marks = named(alloc, items, log)?;
    match reduce(alloc, spec, question, &marks, budget, guides) {
        Ok(Reduced::Needs(needed)) => Ok(Sought::Needs(needed)),
        Ok(Reduced::Fails(_)) => seek_all(alloc, spec, question, items, budget, guides),
        Ok(Reduced::Open(spent)) => Ok(Sought::Open(spent)),
        Err(NoMemory) => Err(NoMemory),
    }
}

/// The same among all items, which suffice.
fn seek_all(
    alloc: Global,
    spec: &Specification,
    question: &Question,
    items: &[Item],
    budget: u64,
    guides: &mut Guides,
) -> Result<Sought, NoMemory>
    requires within { IsWithin spec.now }
    requires question { IsFactQuestion spec.now.relations question.now }
    requires holds { EachConsistent spec.now (FactHolds spec.now.relations question.now) }
    requires items { items.now ≡ items_of spec.now }
    ensures { IfOk result (IsSought spec.now question.now budget) }
{
    all_items();
    let marks = all(alloc, items)?;
    match reduce(alloc, spec, question, &marks, budget, guides) {
        Ok(Reduced::Needs(needed)) => Ok(Sought::Needs(needed)),
        Ok(Reduced::Fails(_)) => unreachable!(),
        Ok(Reduced::Open(spent)) => Ok(Sought::Open(spent)),
        Err(NoMemory) => Err(NoMemory),
    }
}
