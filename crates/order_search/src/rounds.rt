ghost use Rattle.std.specs.Prelude.{◌≡◌, ◌+◌, ◌<◌, ℕ, length, IfOk, IfSome, IfNone, OnOk};
ghost use Rattle.currency_base.specs.Literals.{var_of};
ghost use Rattle.refutation_log.specs.Counted.{counted_steps};
ghost use Rattle.order_adequacy.specs.Laws.{IsModelOf};
ghost use Rattle.order_search.specs.Kept.{AreTrue, HasAdded, IsHeld, search_of, unmarked, vars_of};
ghost use Rattle.order_search.specs.Searches.{Tells};
ghost use Rattle.order_search.specs.Tied.{KeepsTied};
ghost use Rattle.search_trail.specs.Trails.{whole_scope};
ghost use Rattle.watch_solver.specs.Decided.{IsModelOn};

use crate::Outcome;
use crate::bringing::bring_all;
use crate::progress::Progress;
use crate::subject::Subject;
use completion_build::Built;
use currency_base::{Assignment, Lit, NoMemory, laws_of_literals};
use order_adequacy::models_are_completions;
use order_literals::{one_literal, pairs_are_decided};
use solver_guides::Guides;
use spec_model::Completion;
use std::alloc::Global;
use watch_solver::{Budget, Found, counted_stay_new, whole_scope_gives_models};

/// Decides over all variables.
pub(crate) fn decided(
    subject: &Subject<'_>,
    progress: &mut Progress,
    alloc: Global,
    goal: Option<Lit>,
    budget: &mut Budget,
    guides: &mut Guides,
) -> Result<Outcome, NoMemory>
    requires held { IsHeld subject.now progress.old.solver progress.old.brought.items }
    requires goal { IfSome goal (λ lit. var_of lit < length (vars_of subject.now)) }
    ensures held { IsHeld subject.now progress.new.solver progress.new.brought.items }
    ensures added { HasAdded progress.old.solver progress.new.solver }
    ensures tied { KeepsTied subject.now progress.old.solver.steps progress.new.solver.steps }
    ensures units { counted_steps progress.new.solver.steps + budget.new ≡ counted_steps progress.old.solver.steps + budget.old }
    ensures found { IfOk result (Tells (search_of subject.now progress.new.solver) goal budget.new) }
{
    match widen(subject, progress, alloc, guides) {
        Ok(()) => decided_on_all(subject, progress, alloc, goal, budget, guides),
        Err(error) => Err(error),
    }
}

// The same, where all variables are of the scope: by one round after another, until there is an answer.
fn decided_on_all(
    subject: &Subject<'_>,
    progress: &mut Progress,
    alloc: Global,
    goal: Option<Lit>,
    budget: &mut Budget,
    guides: &mut Guides,
) -> Result<Outcome, NoMemory>
    requires held { IsHeld subject.now progress.old.solver progress.old.brought.items }
    requires scope { progress.old.solver.trail.scope ≡ whole_scope (length (vars_of subject.now)) }
    requires goal { IfSome goal (λ lit. var_of lit < length (vars_of subject.now)) }
    ensures held { IsHeld subject.now progress.new.solver progress.new.brought.items }
    ensures added { HasAdded progress.old.solver progress.new.solver }
    ensures tied { KeepsTied subject.now progress.old.solver.steps progress.new.solver.steps }
    ensures units { counted_steps progress.new.solver.steps + budget.new ≡ counted_steps progress.old.solver.steps + budget.old }
    ensures found { IfOk result (Tells (search_of subject.now progress.new.solver) goal budget.new) }
{
    loop {
        match round(subject, progress, alloc, goal, budget, guides) {
            Ok(None) => {}
            Ok(Some(outcome)) => return Ok(outcome),
            Err(error) => return Err(error),
        }
    }
}

// Takes all variables for the scope, unless it has them.
fn widen(
    subject: &Subject<'_>,
    progress: &mut Progress,
    alloc: Global,
    guides: &mut Guides,
) -> Result<(), NoMemory>
    requires { IsHeld subject.now progress.old.solver progress.old.brought.items }
    ensures held { IsHeld subject.now progress.new.solver progress.new.brought.items }
    ensures frame { progress.new.solver.frame ≡ progress.old.solver.frame }
    ensures steps { progress.new.solver.steps ≡ progress.old.solver.steps }
    ensures scope { OnOk result (progress.new.solver.trail.scope ≡ whole_scope (length (vars_of subject.now))) }
{
    progress.solver.is_solver();
    let values = progress.solver.trail().values();
    let scope = values.scope();
    let all = values.len() as usize;
    if scope.len() == all {
        return Ok(());
    }
    match all_vars(alloc, subject.vars()) {
        Ok(vars) => progress.solver.focus(alloc, vars.as_slice(), guides),
        Err(error) => Err(error),
    }
}

// So many variables.
fn all_vars(alloc: Global, count: u32) -> Result<Vec<u32>, NoMemory>
    ensures { IfOk result (λ vars. vars.items ≡ whole_scope count) }
{
    let mut vars = Vec::new(alloc);
    for var in 0..count {
        let Ok(()) = vars.push(var) else {
            return Err(NoMemory);
        };
    }
    Ok(vars)
}

// What the solver decides; a model that is no completion has a list that goes round, and this is brought in.
fn round(
    subject: &Subject<'_>,
    progress: &mut Progress,
    alloc: Global,
    goal: Option<Lit>,
    budget: &mut Budget,
    guides: &mut Guides,
) -> Result<Option<Outcome>, NoMemory>
    requires held { IsHeld subject.now progress.old.solver progress.old.brought.items }
    requires scope { progress.old.solver.trail.scope ≡ whole_scope (length (vars_of subject.now)) }
    requires goal { IfSome goal (λ lit. var_of lit < length (vars_of subject.now)) }
    ensures held { IsHeld subject.now progress.new.solver progress.new.brought.items }
    ensures scope { progress.new.solver.trail.scope ≡ progress.old.solver.trail.scope }
    ensures added { HasAdded progress.old.solver progress.new.solver }
    ensures tied { KeepsTied subject.now progress.old.solver.steps progress.new.solver.steps }
    ensures units { counted_steps progress.new.solver.steps + budget.new ≡ counted_steps progress.old.solver.steps + budget.old }
    ensures some { IfOk result (λ outcome. IfSome outcome (Tells (search_of subject.now progress.new.solver) goal budget.new)) }
    ensures none { IfOk result (λ outcome. IfNone outcome
        (unmarked progress.new.brought.items < unmarked progress.old.brought.items)) }
{
    counted_stay_new();
    laws_of_literals();
    match progress.solver.decide(goal, budget, guides) {
        Ok(Found::Model) => modelled(subject, progress, alloc, goal, guides),
        Ok(Found::Proved(place)) => Ok(Some(Outcome::Proved(place))),
        Ok(Found::Empty(place)) => Ok(Some(Outcome::Empty(place))),
        Ok(Found::Spent) => {
            progress.solver.trail().are_entries();
            Ok(Some(Outcome::Spent))
        }
        Err(error) => Err(error),
    }
}

// The solver's trail is a model: the completion that it says, unless a list goes round.
fn modelled(
    subject: &Subject<'_>,
    progress: &mut Progress,
    alloc: Global,
    goal: Option<Lit>,
    guides: &mut Guides,
) -> Result<Option<Outcome>, NoMemory>
    requires held { IsHeld subject.now progress.old.solver progress.old.brought.items }
    requires scope { progress.old.solver.trail.scope ≡ whole_scope (length (vars_of subject.now)) }
    requires model { IsModelOn progress.old.solver.steps goal progress.old.solver.trail }
    ensures held { IsHeld subject.now progress.new.solver progress.new.brought.items }
    ensures scope { progress.new.solver.trail.scope ≡ progress.old.solver.trail.scope }
    ensures added { HasAdded progress.old.solver progress.new.solver }
    ensures tied { KeepsTied subject.now progress.old.solver.steps progress.new.solver.steps }
    ensures units { counted_steps progress.new.solver.steps ≡ counted_steps progress.old.solver.steps }
    ensures some { (left : ℕ) → IfOk result (λ outcome. IfSome outcome (Tells (search_of subject.now
        progress.new.solver) goal left)) }
    ensures none { IfOk result (λ outcome. IfNone outcome
        (unmarked progress.new.brought.items < unmarked progress.old.brought.items)) }
{
    whole_scope_gives_models();
    progress.solver.is_solver();
    progress.solver.trail().are_entries();
    let truths = match progress.solver.truths(alloc) {
        Ok(truths) => truths,
        Err(error) => return Err(error),
    };
    match completed(subject, progress, alloc, &truths, guides) {
        Ok(Some(completion)) => Ok(Some(Outcome::Model { truths, completion })),
        Ok(None) => Ok(None),
        Err(error) => Err(error),
    }
}

// The completion that a model says; if there is none, each list that goes round is brought in.
fn completed(
    subject: &Subject<'_>,
    progress: &mut Progress,
    alloc: Global,
    truths: &Assignment,
    guides: &mut Guides,
) -> Result<Option<Completion>, NoMemory>
    requires held { IsHeld subject.now progress.old.solver progress.old.brought.items }
    requires whole { length truths.now ≡ length (vars_of subject.now) }
    requires holds { AreTrue truths.now progress.old.solver.steps }
    ensures held { IsHeld subject.now progress.new.solver progress.new.brought.items }
    ensures scope { progress.new.solver.trail.scope ≡ progress.old.solver.trail.scope }
    ensures added { HasAdded progress.old.solver progress.new.solver }
    ensures tied { KeepsTied subject.now progress.old.solver.steps progress.new.solver.steps }
    ensures units { counted_steps progress.new.solver.steps ≡ counted_steps progress.old.solver.steps }
    ensures some { IfOk result (λ completion. IfSome completion (IsModelOf subject.now.spec subject.now.wanted truths.now)) }
    ensures kept { IfOk result (λ completion. IfSome completion (λ c. progress.new.solver.steps ≡ progress.old.solver.steps)) }
    ensures none { IfOk result (λ completion. IfNone completion
        (unmarked progress.new.brought.items < unmarked progress.old.brought.items)) }
{
    models_are_completions();
    pairs_are_decided();
    match subject.rank(alloc, truths) {
        Ok(Built::Whole(completion)) => Ok(Some(completion)),
        Ok(Built::Cyclic(cycles)) => match bring_all(subject, progress, alloc, &cycles, guides) {
            Ok(()) => Ok(None),
            Err(error) => Err(error),
        },
        Err(error) => Err(error),
    }
}
