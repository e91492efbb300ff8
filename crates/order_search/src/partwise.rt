ghost use Rattle.std.specs.Prelude.{◌≡◌, ◌≢◌, ◌+◌, ◌<◌, All, Contains, ℕ, false, length, slice_get, IfOk, IfSome, IfNone, OnErr, OnOk, Some, true};
ghost use Rattle.currency_base.specs.Literals.{var_of};
ghost use Rattle.entity_ties.specs.Parts.{list_at};
ghost use Rattle.known_models.specs.Changes.{AreBelied, AreModelOf, HasValue};
ghost use Rattle.refutation_log.specs.Counted.{counted_steps};
ghost use Rattle.order_search.specs.Kept.{HasAdded, IsHeld, search_of, unmarked};
ghost use Rattle.order_search.specs.Made.{ComesTo, HasSame, HasTakenIn, IsFalseIn, IsMade};
ghost use Rattle.order_search.specs.Parts.{Ends, IsParting, parted_of};
ghost use Rattle.order_search.specs.Searches.{Tells};
ghost use Rattle.order_search.specs.Tied.{AreMembers, IsTied, scope_in};
ghost use Rattle.watch_solver.specs.Decided.{IsModelOn};

use crate::Outcome;
use crate::bringing::bring_all;
use crate::parting::Parting;
use crate::progress::Progress;
use crate::subject::Subject;
use crate::telling::told;
use crate::tying::scope_of;
use completion_build::CycleList;
use currency_base::{Lit, NoMemory};
use known_models::values_are_models;
use search_trail::Values;
use solver_guides::Guides;
use std::alloc::Global;
use variable_parts::variables_have_parts;
use watch_solver::{Budget, Found, counted_stay_new};

/// What one round over a part came to.
#[derive(Drop)]
pub(crate) enum Round {
    /// The part is done.
    Done,
    /// Lists of it went round, and were brought in.
    Again,
    /// The decision ended with no model.
    Ended(Outcome),
}

/// Decides the part of a goal, and then each of the others, unless all are done by then.
pub(crate) fn decided_with(
    subject: &Subject<'_>,
    progress: &mut Progress,
    parting: &mut Parting,
    alloc: Global,
    part: u32,
    goal: Lit,
    budget: &mut Budget,
    guides: &mut Guides,
) -> Result<Outcome, NoMemory>
    requires held { IsHeld subject.now progress.old.solver progress.old.brought.items }
    requires tied { IsTied subject.now parting.old progress.old.solver.steps }
    requires part { Contains (scope_in parting.old part) (var_of goal) }
    ensures held { IsHeld subject.now progress.new.solver progress.new.brought.items }
    ensures added { HasAdded progress.old.solver progress.new.solver }
    ensures tied { IsTied subject.now parting.new progress.new.solver.steps }
    ensures units { counted_steps progress.new.solver.steps + budget.new ≡ counted_steps progress.old.solver.steps + budget.old }
    ensures found { IfOk result (Tells (search_of subject.now progress.new.solver) (Some goal) budget.new) }
{
    match decide_part(
        subject,
        progress,
        parting,
        alloc,
        part,
        Some(goal),
        budget,
        guides,
    ) {
        Ok(None) => decided_beside(
            subject, progress, parting, alloc, part, goal, budget, guides,
        ),
        Ok(Some(outcome)) => Ok(outcome),
        Err(error) => Err(error),
    }
}

// Where the part of a goal is done: decides each of the others, unless all are done.
fn decided_beside(
    subject: &Subject<'_>,
    progress: &mut Progress,
    parting: &mut Parting,
    alloc: Global,
    part: u32,
    goal: Lit,
    budget: &mut Budget,
    guides: &mut Guides,
) -> Result<Outcome, NoMemory>
    requires held { IsHeld subject.now progress.old.solver progress.old.brought.items }
    requires tied { IsTied subject.now parting.old progress.old.solver.steps }
    requires done { slice_get parting.old.known.done part ≡ Some true }
    requires goal { IsFalseIn parting.old (Some part) goal }
    ensures held { IsHeld subject.now progress.new.solver progress.new.brought.items }
    ensures added { HasAdded progress.old.solver progress.new.solver }
    ensures tied { IsTied subject.now parting.new progress.new.solver.steps }
    ensures units { counted_steps progress.new.solver.steps + budget.new ≡ counted_steps progress.old.solver.steps + budget.old }
    ensures found { IfOk result (Tells (search_of subject.now progress.new.solver) (Some goal) budget.new) }
{
    if parting.known.is_whole() && subject.answer_of(goal.var()).is_none() {
        return told(subject, progress, parting, alloc, Some(goal), Some(part));
    }
    decided_in_parts(
        subject,
        progress,
        parting,
        alloc,
        Some(part),
        Some(goal),
        budget,
        guides,
    )
}

/// Decides one part after another anew, but for the goal's, which is done.
pub(crate) fn decided_in_parts(
    subject: &Subject<'_>,
    progress: &mut Progress,
    parting: &mut Parting,
    alloc: Global,
    own: Option<u32>,
    goal: Option<Lit>,
    budget: &mut Budget,
    guides: &mut Guides,
) -> Result<Outcome, NoMemory>
    requires held { IsHeld subject.now progress.old.solver progress.old.brought.items }
    requires tied { IsTied subject.now parting.old progress.old.solver.steps }
    requires own { IfSome own (λ part. slice_get parting.old.known.done part ≡ Some true) }
    requires goal { IfSome goal (IsFalseIn parting.old own) }
    ensures held { IsHeld subject.now progress.new.solver progress.new.brought.items }
    ensures added { HasAdded progress.old.solver progress.new.solver }
    ensures tied { IsTied subject.now parting.new progress.new.solver.steps }
    ensures units { counted_steps progress.new.solver.steps + budget.new ≡ counted_steps progress.old.solver.steps + budget.old }
    ensures found { IfOk result (Tells (search_of subject.now progress.new.solver) goal budget.new) }
{
    let count = parting.parts.count();
    for part in 0..count {
        match decide_left(
            subject,
            progress,
            parting,
            alloc,
            part as u32,
            own,
            goal,
            budget,
            guides,
        ) {
            Ok(None) => {}
            Ok(Some(outcome)) => return Ok(outcome),
            Err(error) => return Err(error),
        }
    }
    told(subject, progress, parting, alloc, goal, own)
}

// Decides a part, unless it is the goal's.
fn decide_left(
    subject: &Subject<'_>,
    progress: &mut Progress,
    parting: &mut Parting,
    alloc: Global,
    part: u32,
    own: Option<u32>,
    goal: Option<Lit>,
    budget: &mut Budget,
    guides: &mut Guides,
) -> Result<Option<Outcome>, NoMemory>
    requires held { IsHeld subject.now progress.old.solver progress.old.brought.items }
    requires tied { IsTied subject.now parting.old progress.old.solver.steps }
    requires part { part < length parting.old.parts.parts }
    requires own { IfSome own (λ part. slice_get parting.old.known.done part ≡ Some true) }
    requires goal { IfSome goal (IsFalseIn parting.old own) }
    ensures held { IsHeld subject.now progress.new.solver progress.new.brought.items }
    ensures added { HasAdded progress.old.solver progress.new.solver }
    ensures tied { IsTied subject.now parting.new progress.new.solver.steps }
    ensures same { HasSame parting.old parting.new }
    ensures units { counted_steps progress.new.solver.steps + budget.new ≡ counted_steps progress.old.solver.steps + budget.old }
    ensures goal { IfSome goal (IsFalseIn parting.new own) }
    ensures done { IfOk result (λ ended. IfNone ended (slice_get parting.new.known.done part ≡ Some true)) }
    ensures kept { (other : ℕ) → slice_get parting.old.known.done other ≡ Some true
        → slice_get parting.new.known.done other ≡ Some true }
    ensures ended { IfOk result (λ ended. IfSome ended (Ends (search_of subject.now progress.new.solver) goal budget.new)) }
{
    variables_have_parts();
    if is_own(own, part) || stays(parting, goal, part) {
        return Ok(None);
    }
    decide_part(
        subject, progress, parting, alloc, part, None, budget, guides,
    )
}

// Does a part stay as it is? It is done, it has nothing to do with the goal, and no answer lies in it.
fn stays(parting: &Parting, goal: Option<Lit>, part: u32) -> bool
    requires part { part < length parting.now.known.done }
    requires members { part < length parting.now.members }
    ensures { result ≡ true → slice_get parting.now.known.done part ≡ Some true }
{
    goal.is_some() && parting.members.get(part as usize).len() == 0 && parting.known.is_done(part)
}

// Is a part that of the goal?
fn is_own(own: Option<u32>, part: u32) -> bool
    ensures yes { result ≡ true → own ≡ Some part }
    ensures no { result ≡ false → own ≢ Some part }
{
    match own {
        Some(own) => own == part,
        None => false,
    }
}

// Decides one part, with a goal or none, until it is done or the decision ends.
fn decide_part(
    subject: &Subject<'_>,
    progress: &mut Progress,
    parting: &mut Parting,
    alloc: Global,
    part: u32,
    goal: Option<Lit>,
    budget: &mut Budget,
    guides: &mut Guides,
) -> Result<Option<Outcome>, NoMemory>
    requires held { IsHeld subject.now progress.old.solver progress.old.brought.items }
    requires tied { IsTied subject.now parting.old progress.old.solver.steps }
    requires part { part < length parting.old.parts.parts }
    requires goal { IfSome goal (λ lit. Contains (scope_in parting.old part) (var_of lit)) }
    ensures held { IsHeld subject.now progress.new.solver progress.new.brought.items }
    ensures added { HasAdded progress.old.solver progress.new.solver }
    ensures tied { IsTied subject.now parting.new progress.new.solver.steps }
    ensures same { HasSame parting.old parting.new }
    ensures units { counted_steps progress.new.solver.steps + budget.new ≡ counted_steps progress.old.solver.steps + budget.old }
    ensures made { IfOk result (λ ended. IfNone ended (IsMade part goal parting.old parting.new)) }
    ensures ended { IfOk result (λ ended. IfSome ended (Ends (search_of subject.now progress.new.solver) goal budget.new)) }
    ensures stays { IfOk result (λ ended. IfSome ended (λ outcome. parting.new ≡ parting.old)) }
    ensures err { OnErr result (parting.new ≡ parting.old) }
{
    focus(subject, progress, parting, alloc, part, guides)?;
    decide_focused(
        subject, progress, parting, alloc, part, goal, budget, guides,
    )
}

// Takes the variables of a part, and those of the answers that lie in it, for the scope. The ring is told of these, so that it is
// seen first whether they can all be none.
fn focus(
    subject: &Subject<'_>,
    progress: &mut Progress,
    parting: &Parting,
    alloc: Global,
    part: u32,
    guides: &mut Guides,
) -> Result<(), NoMemory>
    requires held { IsHeld subject.now progress.old.solver progress.old.brought.items }
    requires parting { IsParting subject.now parting.now.parts parting.now.known }
    requires members { AreMembers subject.now parting.now }
    requires part { part < length parting.now.parts.parts }
    ensures held { IsHeld subject.now progress.new.solver progress.new.brought.items }
    ensures frame { progress.new.solver.frame ≡ progress.old.solver.frame }
    ensures steps { progress.new.solver.steps ≡ progress.old.solver.steps }
    ensures scope { OnOk result (progress.new.solver.trail.scope ≡ scope_in parting.now part) }
{
    let scope = scope_of(subject, parting, alloc, part)?;
    progress.solver.focus(alloc, scope.as_slice(), guides)?;
    for member in parting.members.get(part as usize).as_slice() {
        guides.saw(*member);
    }
    Ok(())
}

// The same, where the scope is the part's variables.
fn decide_focused(
    subject: &Subject<'_>,
    progress: &mut Progress,
    parting: &mut Parting,
    alloc: Global,
    part: u32,
    goal: Option<Lit>,
    budget: &mut Budget,
    guides: &mut Guides,
) -> Result<Option<Outcome>, NoMemory>
    requires held { IsHeld subject.now progress.old.solver progress.old.brought.items }
    requires tied { IsTied subject.now parting.old progress.old.solver.steps }
    requires scope { progress.old.solver.trail.scope ≡ scope_in parting.old part }
    requires part { part < length parting.old.parts.parts }
    requires goal { IfSome goal (λ lit. Contains (scope_in parting.old part) (var_of lit)) }
    ensures held { IsHeld subject.now progress.new.solver progress.new.brought.items }
    ensures added { HasAdded progress.old.solver progress.new.solver }
    ensures tied { IsTied subject.now parting.new progress.new.solver.steps }
    ensures units { counted_steps progress.new.solver.steps + budget.new ≡ counted_steps progress.old.solver.steps + budget.old }
    ensures made { IfOk result (λ ended. IfNone ended (IsMade part goal parting.old parting.new)) }
    ensures ended { IfOk result (λ ended. IfSome ended (Ends (search_of subject.now progress.new.solver) goal budget.new)) }
    ensures stays { IfOk result (λ ended. IfSome ended (λ outcome. parting.new ≡ parting.old)) }
    ensures err { OnErr result (parting.new ≡ parting.old) }
{
    loop {
        match one_round(
            subject, progress, parting, alloc, part, goal, budget, guides,
        ) {
            Ok(Round::Again) => {}
            Ok(Round::Done) => return Ok(None),
            Ok(Round::Ended(outcome)) => return Ok(Some(outcome)),
            Err(error) => return Err(error),
        }
    }
}

// What the solver decides on a part.
fn one_round(
    subject: &Subject<'_>,
    progress: &mut Progress,
    parting: &mut Parting,
    alloc: Global,
    part: u32,
    goal: Option<Lit>,
    budget: &mut Budget,
    guides: &mut Guides,
) -> Result<Round, NoMemory>
    requires held { IsHeld subject.now progress.old.solver progress.old.brought.items }
    requires tied { IsTied subject.now parting.old progress.old.solver.steps }
    requires scope { progress.old.solver.trail.scope ≡ scope_in parting.old part }
    requires part { part < length parting.old.parts.parts }
    requires goal { IfSome goal (λ lit. Contains (scope_in parting.old part) (var_of lit)) }
    ensures held { IsHeld subject.now progress.new.solver progress.new.brought.items }
    ensures scope { progress.new.solver.trail.scope ≡ progress.old.solver.trail.scope }
    ensures added { HasAdded progress.old.solver progress.new.solver }
    ensures tied { IsTied subject.now parting.new progress.new.solver.steps }
    ensures units { counted_steps progress.new.solver.steps + budget.new ≡ counted_steps progress.old.solver.steps + budget.old }
    ensures comes { IfOk result (ComesTo part goal parting.old parting.new
        (unmarked progress.old.brought.items) (unmarked progress.new.brought.items)
        (search_of subject.now progress.new.solver) budget.new) }
    ensures err { OnErr result (parting.new ≡ parting.old) }
{
    counted_stay_new();
    match progress.solver.decide(goal, budget, guides) {
        Ok(Found::Model) => take_values(subject, progress, parting, alloc, part, goal, guides),
        Ok(Found::Proved(place)) => Ok(Round::Ended(Outcome::Proved(place))),
        Ok(Found::Empty(place)) => Ok(Round::Ended(Outcome::Empty(place))),
        Ok(Found::Spent) => {
            progress.solver.trail().are_entries();
            Ok(Round::Ended(Outcome::Spent))
        }
        Err(error) => Err(error),
    }
}

// The solver's trail is a model on a part: the known model takes it, unless a list goes round.
fn take_values(
    subject: &Subject<'_>,
    progress: &mut Progress,
    parting: &mut Parting,
    alloc: Global,
    part: u32,
    goal: Option<Lit>,
    guides: &mut Guides,
) -> Result<Round, NoMemory>
    requires held { IsHeld subject.now progress.old.solver progress.old.brought.items }
    requires tied { IsTied subject.now parting.old progress.old.solver.steps }
    requires scope { progress.old.solver.trail.scope ≡ scope_in parting.old part }
    requires part { part < length parting.old.parts.parts }
    requires goal { IfSome goal (λ lit. Contains (scope_in parting.old part) (var_of lit)) }
    requires model { IsModelOn progress.old.solver.steps goal progress.old.solver.trail }
    ensures held { IsHeld subject.now progress.new.solver progress.new.brought.items }
    ensures scope { progress.new.solver.trail.scope ≡ progress.old.solver.trail.scope }
    ensures added { HasAdded progress.old.solver progress.new.solver }
    ensures tied { IsTied subject.now parting.new progress.new.solver.steps }
    ensures units { counted_steps progress.new.solver.steps ≡ counted_steps progress.old.solver.steps }
    ensures comes { (left : ℕ) → IfOk result (ComesTo part goal parting.old parting.new
        (unmarked progress.old.brought.items) (unmarked progress.new.brought.items)
        (search_of subject.now progress.new.solver) left) }
    ensures err { OnErr result (parting.new ≡ parting.old) }
{
    values_are_models();
    variables_have_parts();
    progress.solver.is_solver();
    progress.solver.trail().are_entries();
    let values = progress.solver.trail().values();
    match replace(subject, parting, alloc, part, values) {
        Ok(None) => Ok(Round::Done),
        Ok(Some(cycles)) => {
            bring_all(subject, progress, alloc, &cycles, guides)?;
            Ok(Round::Again)
        }
        Err(error) => Err(error),
    }
}

// The known model takes the values of a part, and of the answers that lie in it, unless a list goes round.
fn replace(
    subject: &Subject<'_>,
    parting: &mut Parting,
    alloc: Global,
    part: u32,
    values: &Values,
) -> Result<Option<CycleList>, NoMemory>
    requires parting { IsParting subject.now parting.old.parts parting.old.known }
    requires members { AreMembers subject.now parting.old }
    requires part { part < length parting.old.parts.parts }
    requires values { AreModelOf (parted_of subject.now parting.old.parts) values.now.given part }
    requires beside { All (HasValue values.now.given) (list_at parting.old.members part) }
    ensures taken { IfOk result (λ found. IfNone found (HasTakenIn subject.now part values.now.given parting.old parting.new)) }
    ensures belied { IfOk result (λ found. IfSome found
        (AreBelied (parted_of subject.now parting.old.parts) values.now.given part parting.old.known)) }
    ensures cycles { IfOk result (λ found. IfSome found (λ cycles. parting.new ≡ parting.old)) }
    ensures err { OnErr result (parting.new ≡ parting.old) }
{
    variables_have_parts();
    let parted = subject.parted(&parting.parts);
    match parting.known.replace(alloc, &parted, part, values) {
        Ok(None) => {
            let members = parting.members.get(part as usize).as_slice();
            parting.known.take_beside(&parted, members, values);
            Ok(None)
        }
        Ok(Some(cycles)) => Ok(Some(cycles)),
        Err(error) => Err(error),
    }
}
