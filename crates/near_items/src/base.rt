//! A completion of the whole that satisfies some rules, where there is no consistent one.

ghost use Rattle.std.specs.Prelude.{◌≡◌, true, false, IfOk, IfSome, map};
ghost use Rattle.minimal_items.specs.Among.{among};
ghost use Rattle.minimal_items.specs.Explanations.{needed_items};
ghost use Rattle.part_widens.specs.Widened.{rules_among};
ghost use Rattle.search_logs.specs.SearchLogs.{IsWithin};
ghost use Rattle.spec_items.specs.Items.{items_of};
ghost use Rattle.spec_items.specs.Kept.{kept};
ghost use Rattle.spec_model.specs.Consistent.{IsConsistent};

use crate::laws::is_specification;
use currency_base::NoMemory;
use item_limits::fewer_are_within;
use kept_items::{alike_are_one, with_marked};
use minimal_items::{Needed, NeededList, Trial, try_fact};
use solver_guides::Guides;
use spec_items::{Item, items};
use spec_model::{Completion, Question, Specification};
use std::alloc::Global;

/// A completion that satisfies the rules among needed items; none, where there is none, or the budget is spent.
pub(crate) fn rules_alone(
    alloc: Global,
    spec: &Specification,
    needed: &NeededList,
    budget: u64,
    guides: &mut Guides,
) -> Result<Option<Completion>, NoMemory>
    requires within { IsWithin spec.now }
    ensures { IfOk result (λ found. IfSome found (IsConsistent (kept (rules_among (needed_items needed.now)) spec.now))) }
{
    fewer_are_within();
    alike_are_one();
    let marks = rule_marks(alloc, spec, needed)?;
    let rules = with_marked(alloc, spec, &marks)?;
    is_specification(&rules);
    some_completion(alloc, &rules, budget, guides)
}

/// A consistent completion, where there is one, and it is found within the budget.
fn some_completion(
    alloc: Global,
    spec: &Specification,
    budget: u64,
    guides: &mut Guides,
) -> Result<Option<Completion>, NoMemory>
    requires within { IsWithin spec.now }
    ensures { IfOk result (λ found. IfSome found (IsConsistent spec.now)) }
{
    match try_fact(alloc, spec, &Question::Consistent, budget, guides) {
        Ok(Trial::Holds) => Ok(None),
        Ok(Trial::Fails(completion)) => Ok(Some(completion)),
        Ok(Trial::Open(_)) => Ok(None),
        Err(NoMemory) => Err(NoMemory),
    }
}

/// Marks the rules of a specification that are needed.
fn rule_marks(
    alloc: Global,
    spec: &Specification,
    needed: &NeededList,
) -> Result<Vec<bool>, NoMemory>
    ensures { IfOk result (λ marks. marks.items ≡ map (rules_among (needed_items needed.now)) (items_of spec.now)) }
{
    let list = items(alloc, spec)?;
    marks_of(alloc, list.as_slice(), needed.as_slice())
}

/// Marks the rules among items that are needed.
fn marks_of(alloc: Global, items: &[Item], needed: &[Needed]) -> Result<Vec<bool>, NoMemory>
    ensures { IfOk result (λ marks. marks.items ≡ map (rules_among (needed_items needed.now)) items.now) }
{
    let mut marks = Vec::new(alloc);
    for item in items {
        marks.push(is_rule_among(*item, needed))?;
    }
    Ok(marks)
}

/// Is an item a rule that is needed?
fn is_rule_among(item: Item, needed: &[Needed]) -> bool
    ensures { result ≡ rules_among (needed_items needed.now) item }
{
    match item {
        Item::Given { .. } => false,
        Item::Rule(_) => is_among(item, needed),
        Item::Copy { .. } => false,
    }
}

/// Is an item needed?
fn is_among(item: Item, needed: &[Needed]) -> bool
    ensures { result ≡ among (needed_items needed.now) item }
{
    for one in needed {
        if is_same(one.item, item) {
            return true;
        }
    }
    false
}

/// Are two items one?
fn is_same(one: Item, other: Item) -> bool
    ensures same { result ≡ true → one ≡ other }
    ensures differ { result ≡ false → one ≡ other → ⊥ }
{
    one == other
}
