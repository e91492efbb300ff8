//! Facts shown one after the other: by what is found, or over the whole specification.

ghost use Rattle.std.specs.Prelude.{◌≡◌, ◌++◌, ◌∷◌, [], All, IfOk, OnOk, length, true};
ghost use Rattle.posed_facts.specs.Facts.{FactIn, IsPosable};
ghost use Rattle.report_verify.specs.Right.{EachConsistent};
ghost use Rattle.search_logs.specs.SearchLogs.{IsWithin};
ghost use Rattle.decided_facts.specs.Decided.{IsFactOutcome};
ghost use Rattle.decided_facts.specs.Steps.{AreFound, Extends, IsOne, IsTask};
ghost use Rattle.decided_facts.specs.declared.rest.One.TheVariants as one;
ghost use Rattle.decided_facts.specs.declared.shown.Shown.TheVariants as shown;
ghost use Rattle.spec_model.specs.Consistent.{IsConsistent};
ghost use Rattle.spec_model.specs.Facts.{IsSpecification};

use crate::seen::failing;
use crate::shown::{FactOutcome, Shown, ShownList};
use crate::task::{Found, Task};
use currency_base::NoMemory;
use fact_trials::{Trial, try_fact};
use posed_facts::{Fact, fact_question, facts_are_asked};
use report_model::{CompletionList, Report};
use solver_guides::Guides;
use spec_model::Completion;
use std::alloc::Global;

/// What is shown of one fact.
#[derive(Drop)]
pub(crate) enum One {
    Shown(Shown),
    /// The budget is spent, as this report says.
    Open(Report),
}

/// Shows each fact, in order.
pub(crate) fn decide_rest(
    alloc: Global,
    task: &Task<'_>,
    found: Found,
    guides: &mut Guides,
) -> Result<FactOutcome, NoMemory>
    requires task { IsTask task.now.spec.now task.now.facts.now }
    requires found { AreFound task.now.spec.now task.now.facts.now found.completions.items found.holds.items }
    ensures { IfOk result (IsFactOutcome task.now.spec.now task.now.facts.now task.now.budget) }
{
    let Found {
        mut completions,
        holds,
    } = found;
    let mut shown = ShownList::new(alloc);
    for place in 0..task.facts.len() {
        match show(
            alloc,
            task,
            &task.facts[place],
            holds[place],
            &mut completions,
            guides,
        )? {
            One::Shown(one) => shown.push(one)?,
            One::Open(report) => return Ok(FactOutcome::Open { place, report }),
        }
    }
    Ok(FactOutcome::All {
        completions: CompletionList::from_items(completions),
        shown,
    })
}

/// Shows a fact, of which it may be known that it holds in every consistent completion.
fn show(
    alloc: Global,
    task: &Task<'_>,
    fact: &Fact,
    holds: bool,
    completions: &mut Vec<Completion>,
    guides: &mut Guides,
) -> Result<One, NoMemory>
    requires within { IsWithin task.now.spec.now }
    requires specification { IsSpecification task.now.spec.now }
    requires fact { IsPosable task.now.spec.now.relations fact.now }
    requires holds { holds ≡ true → EachConsistent task.now.spec.now (FactIn task.now.spec.now.relations fact.now) }
    requires consistent { All (IsConsistent task.now.spec.now) completions.old.items }
    ensures one { IfOk result (IsOne task.now.spec.now task.now.budget fact.now completions.new.items) }
    ensures consistent { OnOk result (All (IsConsistent task.now.spec.now) completions.new.items) }
    ensures more { OnOk result (Extends completions.old.items completions.new.items) }
{
    if holds {
        return Ok(One::Shown(Shown::Holds));
    }
    match failing(task.spec, fact, completions) {
        Some(place) => {
            let one = failing_in(place)?;
            Ok(one)
        }
        None => show_whole(alloc, task, fact, completions, guides),
    }
}

/// The place of a completion, as it is shown.
fn failing_in(place: usize) -> Result<One, NoMemory>
    ensures { IfOk result (λ x. x ≡ one.Shown (shown.FailsIn place)) }
{
    match u32::try_from(place) {
        Ok(place) => Ok(One::Shown(Shown::FailsIn(place))),
        Err(_) => Err(NoMemory),
    }
}

/// Shows a fact by its question over the whole specification.
fn show_whole(
    alloc: Global,
    task: &Task<'_>,
    fact: &Fact,
    completions: &mut Vec<Completion>,
    guides: &mut Guides,
) -> Result<One, NoMemory>
    requires within { IsWithin task.now.spec.now }
    requires specification { IsSpecification task.now.spec.now }
    requires fact { IsPosable task.now.spec.now.relations fact.now }
    requires consistent { All (IsConsistent task.now.spec.now) completions.old.items }
    ensures one { IfOk result (IsOne task.now.spec.now task.now.budget fact.now completions.new.items) }
    ensures consistent { OnOk result (All (IsConsistent task.now.spec.now) completions.new.items) }
    ensures more { OnOk result (Extends completions.old.items completions.new.items) }
{
    facts_are_asked();
    let question = fact_question(alloc, task.spec, fact)?;
    match try_fact(alloc, task.spec, &question, task.budget, guides) {
        Ok(Trial::Holds) => Ok(One::Shown(Shown::Holds)),
        Ok(Trial::Fails(completion)) => {
            let one = list(completion, completions)?;
            Ok(one)
        }
        Ok(Trial::Open(report)) => Ok(One::Open(report)),
        Err(NoMemory) => Err(NoMemory),
    }
}

/// Lists a completion in which a fact fails.
fn list(completion: Completion, completions: &mut Vec<Completion>) -> Result<One, NoMemory>
    ensures one { IfOk result (λ x. x ≡ one.Shown (shown.FailsIn (length completions.old.items))) }
    ensures listed { OnOk result (completions.new.items ≡ completions.old.items ++ completion ∷ []) }
{
    let place = completions.len();
    completions.push(completion)?;
    failing_in(place)
}
