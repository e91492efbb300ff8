ghost use Rattle.std.specs.Prelude.{◌≡◌, ◌<◌, ◌≤◌, length, IfSome, IfNone};
ghost use Rattle.search_state.specs.States.{vars_of};
ghost use Rattle.watch_solver.specs.Underway.{IsGoalFalse, IsGoalWithin, IsNext, IsOfGoal, IsStop};

use currency_base::Lit;
use search_state::State;
use search_trail::Trail;
use solver_guides::Guides;

/// Where a search stops.
#[derive(Drop)]
pub(crate) enum Stop {
    /// Each variable of the scope has a value.
    Complete,
    /// The goal is true, and nothing is assumed.
    Holds(Lit),
    /// The clause of a step is false.
    Conflict(u32),
}

/// What comes next where unit propagation is at rest.
#[derive(Drop)]
pub(crate) enum Next {
    /// Each variable of the scope has a value.
    Complete,
    /// The goal is true, and nothing is assumed.
    Holds(Lit),
    /// A literal is assumed.
    Assume(Lit),
}

/// Propagates and assumes literals, the goal's negation first, until there is a reason to stop. Takes no memory.
pub(crate) fn search(state: &mut State, goal: Option<Lit>, guides: &mut Guides) -> Stop
    requires within { IsGoalWithin (vars_of state.old) goal }
    requires kept { IsOfGoal state.old.trail goal }
    ensures frame { state.new.frame ≡ state.old.frame }
    ensures scope { state.new.trail.scope ≡ state.old.trail.scope }
    ensures steps { state.new.steps ≡ state.old.steps }
    ensures kept { IsOfGoal state.new.trail goal }
    ensures stop { IsStop state.new goal result }
{
    loop {
        if let Some(stop) = advance(state, goal, guides) {
            return stop;
        }
    }
}

// Propagates and assumes one literal, if there is no reason to stop.
fn advance(state: &mut State, goal: Option<Lit>, guides: &mut Guides) -> Option<Stop>
    requires within { IsGoalWithin (vars_of state.old) goal }
    requires kept { IsOfGoal state.old.trail goal }
    ensures frame { state.new.frame ≡ state.old.frame }
    ensures scope { state.new.trail.scope ≡ state.old.trail.scope }
    ensures steps { state.new.steps ≡ state.old.steps }
    ensures kept { IsOfGoal state.new.trail goal }
    ensures stop { IfSome result (IsStop state.new goal) }
    ensures more { IfNone result (length state.old.trail.entries < length state.new.trail.entries) }
    ensures bound { length state.new.trail.entries ≤ vars_of state.new }
{
    if let Some(place) = state.propagate() {
        state.is_state();
        state.trail().are_entries();
        return Some(Stop::Conflict(place));
    }
    state.is_state();
    match next_step(state.trail(), goal, guides) {
        Next::Complete => {
            state.trail().are_entries();
            Some(Stop::Complete)
        }
        Next::Holds(lit) => {
            state.trail().are_entries();
            Some(Stop::Holds(lit))
        }
        Next::Assume(lit) => {
            state.assume(lit);
            state.is_state();
            state.trail().are_entries();
            None
        }
    }
}

// What comes next: first the goal is looked at, where nothing is assumed.
fn next_step(trail: &Trail, goal: Option<Lit>, guides: &mut Guides) -> Next
    requires within { IsGoalWithin trail.now.vars goal }
    requires kept { IsOfGoal trail.now goal }
    ensures { IsNext trail.now goal result }
{
    trail.are_entries();
    let Some(lit) = goal else {
        return next_free(trail, goal, guides);
    };
    if trail.depth() > 0 {
        return next_free(trail, goal, guides);
    }
    match trail.values().value(lit.var()) {
        None => Next::Assume(lit.negated()),
        Some(value) => {
            if value == lit.negative() {
                next_free(trail, goal, guides)
            } else {
                Next::Holds(lit)
            }
        }
    }
}

// The literal of a free variable of the scope, where the goal is false.
fn next_free(trail: &Trail, goal: Option<Lit>, guides: &mut Guides) -> Next
    requires kept { IsOfGoal trail.now goal }
    requires goal_false { IsGoalFalse trail.now goal }
    ensures { IsNext trail.now goal result }
{
    trail.are_entries();
    let values = trail.values();
    match values.first_free() {
        Some(_) => Next::Assume(guides.pick(values)),
        None => Next::Complete,
    }
}
