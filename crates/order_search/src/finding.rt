ghost use Rattle.std.specs.Prelude.{◌≡◌, ◌+◌, ◌<◌, Contains, Some, length, IfOk, IfSome};
ghost use Rattle.currency_base.specs.Literals.{var_of};
ghost use Rattle.refutation_log.specs.Counted.{counted_steps};
ghost use Rattle.order_search.specs.Kept.{HasAdded, IsHeld, search_of, vars_of};
ghost use Rattle.order_search.specs.Parts.{IsParting};
ghost use Rattle.order_search.specs.Searches.{Tells};
ghost use Rattle.order_search.specs.Tied.{AreMembers, IsAnswerVar, IsTied, KeepsTied, scope_in};

use crate::Outcome;
use crate::parting::{Parting, Tie};
use crate::partwise::{decided_in_parts, decided_with};
use crate::progress::{Progress, root_value};
use crate::rounds::decided;
use crate::subject::Subject;
use currency_base::{Lit, NoMemory, laws_of_literals};
use solver_guides::Guides;
use std::alloc::Global;
use watch_solver::{Budget, Found, counted_stay_new};

/// Decides part by part, unless the goal is on an answer whose matches do not lie in one part: then over all variables.
pub(crate) fn found(
    subject: &Subject<'_>,
    progress: &mut Progress,
    parting: &mut Parting,
    alloc: Global,
    goal: Option<Lit>,
    budget: &mut Budget,
    guides: &mut Guides,
) -> Result<Outcome, NoMemory>
    requires held { IsHeld subject.now progress.old.solver progress.old.brought.items }
    requires tied { IsTied subject.now parting.old progress.old.solver.steps }
    requires goal { IfSome goal (λ lit. var_of lit < length (vars_of subject.now)) }
    ensures held { IsHeld subject.now progress.new.solver progress.new.brought.items }
    ensures added { HasAdded progress.old.solver progress.new.solver }
    ensures tied { IsTied subject.now parting.new progress.new.solver.steps }
    ensures units { counted_steps progress.new.solver.steps + budget.new ≡ counted_steps progress.old.solver.steps + budget.old }
    ensures found { IfOk result (Tells (search_of subject.now progress.new.solver) goal budget.new) }
{
    laws_of_literals();
    match goal {
        Some(lit) => found_goal(subject, progress, parting, alloc, lit, budget, guides),
        None => decided_in_parts(
            subject, progress, parting, alloc, None, goal, budget, guides,
        ),
    }
}

// Decides a goal in its part, unless it is true where nothing is assumed: then no scope is taken for it.
fn found_goal(
    subject: &Subject<'_>,
    progress: &mut Progress,
    parting: &mut Parting,
    alloc: Global,
    goal: Lit,
    budget: &mut Budget,
    guides: &mut Guides,
) -> Result<Outcome, NoMemory>
    requires held { IsHeld subject.now progress.old.solver progress.old.brought.items }
    requires tied { IsTied subject.now parting.old progress.old.solver.steps }
    requires goal { var_of goal < length (vars_of subject.now) }
    ensures held { IsHeld subject.now progress.new.solver progress.new.brought.items }
    ensures added { HasAdded progress.old.solver progress.new.solver }
    ensures tied { IsTied subject.now parting.new progress.new.solver.steps }
    ensures units { counted_steps progress.new.solver.steps + budget.new ≡ counted_steps progress.old.solver.steps + budget.old }
    ensures found { IfOk result (Tells (search_of subject.now progress.new.solver) (Some goal) budget.new) }
{
    if root_value(progress.solver.trail(), goal.var()) != Some(!goal.negative()) {
        return found_in_part(subject, progress, parting, alloc, goal, budget, guides);
    }
    match told_known(subject, progress, goal, budget, guides) {
        Ok(None) => found_in_part(subject, progress, parting, alloc, goal, budget, guides),
        Ok(Some(outcome)) => Ok(outcome),
        Err(error) => Err(error),
    }
}

// What the solver tells of a goal in the scope that it has, but for a model.
fn told_known(
    subject: &Subject<'_>,
    progress: &mut Progress,
    goal: Lit,
    budget: &mut Budget,
    guides: &mut Guides,
) -> Result<Option<Outcome>, NoMemory>
    requires held { IsHeld subject.now progress.old.solver progress.old.brought.items }
    requires goal { var_of goal < length (vars_of subject.now) }
    ensures held { IsHeld subject.now progress.new.solver progress.new.brought.items }
    ensures added { HasAdded progress.old.solver progress.new.solver }
    ensures tied { KeepsTied subject.now progress.old.solver.steps progress.new.solver.steps }
    ensures units { counted_steps progress.new.solver.steps + budget.new ≡ counted_steps progress.old.solver.steps + budget.old }
    ensures some { IfOk result (λ outcome. IfSome outcome (Tells (search_of subject.now progress.new.solver) (Some goal)
        budget.new)) }
{
    counted_stay_new();
    match progress.solver.decide(Some(goal), budget, guides) {
        Ok(Found::Model) => Ok(None),
        Ok(Found::Proved(place)) => Ok(Some(Outcome::Proved(place))),
        Ok(Found::Empty(place)) => Ok(Some(Outcome::Empty(place))),
        Ok(Found::Spent) => {
            progress.solver.trail().are_entries();
            Ok(Some(Outcome::Spent))
        }
        Err(error) => Err(error),
    }
}

// Decides a goal in its part, if it has one, and else over all variables.
fn found_in_part(
    subject: &Subject<'_>,
    progress: &mut Progress,
    parting: &mut Parting,
    alloc: Global,
    goal: Lit,
    budget: &mut Budget,
    guides: &mut Guides,
) -> Result<Outcome, NoMemory>
    requires held { IsHeld subject.now progress.old.solver progress.old.brought.items }
    requires tied { IsTied subject.now parting.old progress.old.solver.steps }
    requires goal { var_of goal < length (vars_of subject.now) }
    ensures held { IsHeld subject.now progress.new.solver progress.new.brought.items }
    ensures added { HasAdded progress.old.solver progress.new.solver }
    ensures tied { IsTied subject.now parting.new progress.new.solver.steps }
    ensures units { counted_steps progress.new.solver.steps + budget.new ≡ counted_steps progress.old.solver.steps + budget.old }
    ensures found { IfOk result (Tells (search_of subject.now progress.new.solver) (Some goal) budget.new) }
{
    match part_with(subject, parting, goal.var()) {
        Some(part) => decided_with(
            subject, progress, parting, alloc, part, goal, budget, guides,
        ),
        None => decided(subject, progress, alloc, Some(goal), budget, guides),
    }
}

// The part of a variable: where its statement is on an answer, the one in which its matches lie, if they lie in one.
fn part_with(subject: &Subject<'_>, parting: &Parting, var: u32) -> Option<u32>
    requires parting { IsParting subject.now parting.now.parts parting.now.known }
    requires members { AreMembers subject.now parting.now }
    requires var { var < length (vars_of subject.now) }
    ensures { IfSome result (λ part. Contains (scope_in parting.now part) var) }
{
    match subject.answer_of(var) {
        Some(answer) => tied_to(subject, parting, answer, var),
        None => subject.part_of(&parting.parts, var),
    }
}

// The part in which the matches of an answer lie, if they lie in one.
fn tied_to(subject: &Subject<'_>, parting: &Parting, answer: u32, var: u32) -> Option<u32>
    requires members { AreMembers subject.now parting.now }
    requires says { IsAnswerVar subject.now answer var }
    ensures { IfSome result (λ part. Contains (scope_in parting.now part) var) }
{
    if answer as usize >= parting.ties.len() {
        return None;
    }
    match *parting.ties.get(answer as usize) {
        Tie::In(part) => Some(part),
        Tie::Loose | Tie::Across => None,
    }
}
