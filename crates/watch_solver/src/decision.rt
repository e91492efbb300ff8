ghost use Rattle.std.specs.Prelude.{◌≡◌, ◌+◌, ◌<◌, ◌∷◌, ℕ, [], true, false, length, IfOk, IfSome, IfNone, OnOk, OnErr};
ghost use Rattle.currency_base.specs.Literals.{var_of};
ghost use Rattle.refutation_log.specs.Counted.{counted_steps};
ghost use Rattle.search_state.specs.States.{IsFalse, vars_of};
ghost use Rattle.watch_solver.specs.Decided.{HasGrown, IsStepOf};
ghost use Rattle.watch_solver.specs.Underway.{HasCounted, IsAnswer, IsComplete, IsConflict, IsFinal, IsGoalBelow, IsGoalTrue, IsGoalWithin, IsOfGoal};

use crate::goal::goal_level;
use crate::search::{Stop, search};
use crate::{Budget, Found};
use currency_base::{Lit, NoMemory};
use refutation_log::Log;
use search_restarts::Restarts;
use search_state::State;
use solver_guides::Guides;

/// Decides, by one turn after another, until there is an answer.
pub(crate) fn decided(
    state: &mut State,
    goal: Option<Lit>,
    budget: &mut Budget,
    guides: &mut Guides,
) -> Result<Found, NoMemory>
    requires within { IsGoalWithin (vars_of state.old) goal }
    ensures frame { state.new.frame ≡ state.old.frame }
    ensures scope { state.new.trail.scope ≡ state.old.trail.scope }
    ensures grown { HasGrown (vars_of state.old) state.old.steps state.new.steps }
    ensures units { counted_steps state.new.steps + budget.new ≡ counted_steps state.old.steps + budget.old }
    ensures found { IfOk result (IsAnswer state.new goal budget.new) }
{
    state.undo_to(0, guides);
    let mut restarts = Restarts::new();
    loop {
        match turn(state, goal, budget, guides, &mut restarts) {
            Ok(None) => {}
            Ok(Some(found)) => return Ok(found),
            Err(error) => return Err(error),
        }
    }
}

// One search, and what is due where it stops: an answer, or a clause that is learned.
fn turn(
    state: &mut State,
    goal: Option<Lit>,
    budget: &mut Budget,
    guides: &mut Guides,
    restarts: &mut Restarts,
) -> Result<Option<Found>, NoMemory>
    requires within { IsGoalWithin (vars_of state.old) goal }
    requires kept { IsOfGoal state.old.trail goal }
    ensures frame { state.new.frame ≡ state.old.frame }
    ensures scope { state.new.trail.scope ≡ state.old.trail.scope }
    ensures grown { HasGrown (vars_of state.old) state.old.steps state.new.steps }
    ensures units { counted_steps state.new.steps + budget.new ≡ counted_steps state.old.steps + budget.old }
    ensures found { IfOk result (λ found. IfSome found (IsAnswer state.new goal budget.new)) }
    ensures counted { IfOk result (λ found. IfNone found (HasCounted (vars_of state.old) state.old.steps state.new.steps)) }
    ensures kept { IfOk result (λ found. IfNone found (IsOfGoal state.new.trail goal)) }
    ensures fewer { IfOk result (λ found. IfNone found (budget.new < budget.old)) }
{
    match search(state, goal, guides) {
        Stop::Complete => Ok(Some(found_model(state, goal))),
        Stop::Holds(lit) => Ok(Some(prove(state, goal, lit)?)),
        Stop::Conflict(place) => resolve(state, place, goal, budget, guides, restarts),
    }
}

// Each variable of the scope has a value: the trail is a model on it.
fn found_model(state: &State, goal: Option<Lit>) -> Found
    requires { IsComplete state.now goal }
    ensures { (left : ℕ) → IsAnswer state.now goal left result }
{
    state.trail().are_entries();
    Found::Model
}

// The goal is true where nothing is assumed: a step says it alone, or its clause is derived.
fn prove(state: &mut State, goal: Option<Lit>, lit: Lit) -> Result<Found, NoMemory>
    requires within { IsGoalWithin (vars_of state.old) goal }
    requires holds { IsGoalTrue state.old.trail goal lit }
    ensures frame { state.new.frame ≡ state.old.frame }
    ensures scope { state.new.trail.scope ≡ state.old.trail.scope }
    ensures grown { HasGrown (vars_of state.old) state.old.steps state.new.steps }
    ensures units { counted_steps state.new.steps ≡ counted_steps state.old.steps }
    ensures found { (left : ℕ) → IfOk result (IsAnswer state.new goal left) }
{
    if let Some(place) = unit_of(state, lit) {
        return Ok(Found::Proved(place));
    }
    let place = state.derive(lit)?;
    Ok(Found::Proved(place))
}

// The step whose clause is a literal alone, an axiom or one that was derived, where it is the reason of its variable.
fn unit_of(state: &State, lit: Lit) -> Option<u32>
    requires { var_of lit < vars_of state.now }
    ensures { IfSome result (λ place. IsStepOf state.now.steps place (lit ∷ [])) }
{
    state.is_state();
    let place = state.trail().reason(lit.var())?.0;
    if is_step(state.log(), place) && is_alone(state.log(), place, lit) {
        Some(place)
    } else {
        None
    }
}

// Is there a step at this place?
fn is_step(log: &Log, place: u32) -> bool
    ensures { result ≡ true → place < length log.now.steps }
{
    (place as usize) < log.steps.len()
}

// Is the clause of a step this literal alone?
fn is_alone(log: &Log, place: u32, lit: Lit) -> bool
    requires { place < length log.now.steps }
    ensures { result ≡ true → IsStepOf log.now.steps place (lit ∷ []) }
{
    is_one(log.steps.lits(place as usize), lit)
}

// Is a clause this literal alone?
fn is_one(lits: &[Lit], lit: Lit) -> bool
    ensures { result ≡ true → lits.now ≡ lit ∷ [] }
{
    lits.len() == 1 && lits[0] == lit
}

// A conflict: where nothing is assumed but the goal's negation it refutes that, else a clause is learned.
fn resolve(
    state: &mut State,
    conflict: u32,
    goal: Option<Lit>,
    budget: &mut Budget,
    guides: &mut Guides,
    restarts: &mut Restarts,
) -> Result<Option<Found>, NoMemory>
    requires within { IsGoalWithin (vars_of state.old) goal }
    requires kept { IsOfGoal state.old.trail goal }
    requires conflict { IsConflict state.old conflict }
    ensures frame { state.new.frame ≡ state.old.frame }
    ensures scope { state.new.trail.scope ≡ state.old.trail.scope }
    ensures grown { HasGrown (vars_of state.old) state.old.steps state.new.steps }
    ensures units { counted_steps state.new.steps + budget.new ≡ counted_steps state.old.steps + budget.old }
    ensures found { IfOk result (λ found. IfSome found (IsAnswer state.new goal budget.new)) }
    ensures counted { IfOk result (λ found. IfNone found (HasCounted (vars_of state.old) state.old.steps state.new.steps)) }
    ensures kept { IfOk result (λ found. IfNone found (IsOfGoal state.new.trail goal)) }
    ensures fewer { IfOk result (λ found. IfNone found (budget.new < budget.old)) }
{
    state.is_state();
    if state.trail().depth() <= goal_level(state.trail(), goal) {
        let found = refute(state, conflict, goal, guides)?;
        return Ok(Some(found));
    }
    if budget.is_spent() {
        return Ok(Some(Found::Spent));
    }
    learn(state, conflict, goal, budget, guides, restarts)?;
    Ok(None)
}

// A conflict where nothing is assumed but the goal's negation: the empty clause is there or is derived, or the goal's is.
fn refute(
    state: &mut State,
    conflict: u32,
    goal: Option<Lit>,
    guides: &mut Guides,
) -> Result<Found, NoMemory>
    requires conflict { IsFalse state.old conflict }
    requires last { IsFinal state.old.trail goal }
    ensures frame { state.new.frame ≡ state.old.frame }
    ensures scope { state.new.trail.scope ≡ state.old.trail.scope }
    ensures grown { HasGrown (vars_of state.old) state.old.steps state.new.steps }
    ensures units { counted_steps state.new.steps ≡ counted_steps state.old.steps }
    ensures found { (left : ℕ) → IfOk result (IsAnswer state.new goal left) }
{
    if is_empty(state.log(), conflict) {
        return Ok(Found::Empty(conflict));
    }
    let place = state.refute(conflict, guides)?;
    if is_empty(state.log(), place) {
        Ok(Found::Empty(place))
    } else {
        Ok(Found::Proved(place))
    }
}

// Is the clause of a step empty?
fn is_empty(log: &Log, place: u32) -> bool
    requires { place < length log.now.steps }
    ensures empty { result ≡ true → IsStepOf log.now.steps place [] }
    ensures other { result ≡ false → IsStepOf log.now.steps place [] → ⊥ }
{
    log.steps.lits(place as usize).is_empty()
}

// A conflict above the goal's level: a counted clause is learned, which takes a unit.
fn learn(
    state: &mut State,
    conflict: u32,
    goal: Option<Lit>,
    budget: &mut Budget,
    guides: &mut Guides,
    restarts: &mut Restarts,
) -> Result<(), NoMemory>
    requires within { IsGoalWithin (vars_of state.old) goal }
    requires kept { IsOfGoal state.old.trail goal }
    requires conflict { IsConflict state.old conflict }
    requires deep { 0 < length state.old.trail.starts }
    requires left { 0 < budget.old }
    ensures frame { state.new.frame ≡ state.old.frame }
    ensures scope { state.new.trail.scope ≡ state.old.trail.scope }
    ensures counted { OnOk result (HasCounted (vars_of state.old) state.old.steps state.new.steps) }
    ensures units { counted_steps state.new.steps + budget.new ≡ counted_steps state.old.steps + budget.old }
    ensures kept { OnOk result (IsOfGoal state.new.trail goal) }
    ensures fewer { OnOk result (budget.new < budget.old) }
    ensures err { OnErr result (state.new.steps ≡ state.old.steps) }
{
    state.is_state();
    state.trail().are_entries();
    state.learn(conflict, guides)?;
    budget.take();
    start_over(state, goal, guides, restarts);
    Ok(())
}

// Goes back to the goal's level where a run is over, and tells the ring whether the next guide leads.
fn start_over(state: &mut State, goal: Option<Lit>, guides: &mut Guides, restarts: &mut Restarts)
    requires within { IsGoalWithin (vars_of state.old) goal }
    requires kept { IsOfGoal state.old.trail goal }
    ensures frame { state.new.frame ≡ state.old.frame }
    ensures scope { state.new.trail.scope ≡ state.old.trail.scope }
    ensures steps { state.new.steps ≡ state.old.steps }
    ensures kept { IsOfGoal state.new.trail goal }
{
    if !restarts.is_over() {
        return;
    }
    state.is_state();
    state.trail().are_entries();
    let level = goal_level(state.trail(), goal);
    state.undo_to(level, guides);
    let moves = restarts.ends_turn(guides.place());
    guides.begin_again(moves);
}
