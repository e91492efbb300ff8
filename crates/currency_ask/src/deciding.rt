ghost use Rattle.std.specs.Prelude.{◌≡◌, ◌+◌, All, IfOk};
ghost use Rattle.refutation_log.specs.Counted.{counted_steps};
ghost use Rattle.order_search.specs.Searches.{HasGone, IsWantedRow};
ghost use Rattle.spec_model.specs.Questions.{IsAskedPair};
ghost use Rattle.order_links.specs.Lists.{IsListOf};
ghost use Rattle.currency_ask.specs.Goals.{IsCurrentGoal, IsListGoalOn, TellsGoal, TellsGoals};

use crate::goal::{Goal, GoalList};
use currency_base::NoMemory;
use current_claims::CurrentRow;
use order_links::ListId;
use order_search::{Outcome, Search, When};
use refutation_log::HintList;
use solver_guides::Guides;
use spec_model::{Asked, Completion, Specification};
use std::alloc::Global;
use watch_solver::Budget;

/// What deciding goals one after another came to.
#[derive(Drop)]
pub(crate) enum Decided {
    /// Each holds in every consistent completion: the steps that are their units.
    Proved(HintList),
    /// The goal at a place fails in this consistent completion.
    Fails {
        place: usize,
        completion: Completion,
    },
    /// The search came to an end.
    Ended(Outcome),
}

/// Decides goals on pairs and on current values, one after another, up to the first that fails.
pub(crate) fn decide_all(
    alloc: Global,
    spec: &Specification,
    search: &mut Search<'_>,
    goals: &GoalList,
    units: &mut Budget,
    guides: &mut Guides,
) -> Result<Decided, NoMemory>
    requires spec { search.old.spec ≡ spec.now }
    requires goals { All (IsListGoalOn search.old.spec search.old.wanted) goals.now }
    ensures gone { HasGone search.old search.new }
    ensures units { counted_steps search.new.log.steps + units.new ≡ counted_steps search.old.log.steps + units.old }
    ensures outcome { IfOk result (TellsGoals search.new goals.now units.new) }
{
    let mut steps = HintList::new(alloc);
    for place in 0..goals.len() {
        match decide(alloc, spec, search, *goals.get(place), units, guides) {
            Ok(Outcome::Proved(step)) => match steps.push(step) {
                Ok(()) => {}
                Err(error) => return Err(error),
            },
            Ok(Outcome::Model { completion, .. }) => {
                return Ok(Decided::Fails { place, completion });
            }
            Ok(outcome) => return Ok(Decided::Ended(outcome)),
            Err(error) => return Err(error),
        }
    }
    Ok(Decided::Proved(steps))
}

// Decides a goal.
fn decide(
    alloc: Global,
    spec: &Specification,
    search: &mut Search<'_>,
    goal: Goal,
    units: &mut Budget,
    guides: &mut Guides,
) -> Result<Outcome, NoMemory>
    requires spec { search.old.spec ≡ spec.now }
    requires goal { IsListGoalOn search.old.spec search.old.wanted goal }
    ensures gone { HasGone search.old search.new }
    ensures units { counted_steps search.new.log.steps + units.new ≡ counted_steps search.old.log.steps + units.old }
    ensures outcome { IfOk result (TellsGoal search.new goal units.new) }
{
    match goal {
        Goal::Pair(asked) => decide_pair(alloc, spec, search, asked, units, guides),
        Goal::Current(place) => decide_current(alloc, search, place, units, guides),
        Goal::Answer(_) => unreachable!(),
    }
}

// Decides whether an asked pair holds, once the list of its rows is brought in where it is not known.
fn decide_pair(
    alloc: Global,
    spec: &Specification,
    search: &mut Search<'_>,
    asked: Asked,
    units: &mut Budget,
    guides: &mut Guides,
) -> Result<Outcome, NoMemory>
    requires spec { search.old.spec ≡ spec.now }
    requires pair { IsAskedPair search.old.spec.relations asked }
    ensures gone { HasGone search.old search.new }
    ensures units { counted_steps search.new.log.steps + units.new ≡ counted_steps search.old.log.steps + units.old }
    ensures outcome { IfOk result (TellsGoal search.new (Goal.Pair asked) units.new) }
{
    match bring_pair(alloc, spec, search, asked, guides) {
        Ok(()) => {}
        Err(error) => return Err(error),
    }
    search.is_search();
    let pair = asked.pair;
    let lit = search.before(asked.rel, pair.attr, pair.earlier, pair.later);
    let outcome = search.decide(alloc, Some(lit), units, guides);
    search.is_search();
    outcome
}

// Brings in the list of the rows of an asked pair, unless it is known that the pair holds.
fn bring_pair(
    alloc: Global,
    spec: &Specification,
    search: &mut Search<'_>,
    asked: Asked,
    guides: &mut Guides,
) -> Result<(), NoMemory>
    requires spec { search.old.spec ≡ spec.now }
    requires pair { IsAskedPair search.old.spec.relations asked }
    ensures gone { HasGone search.old search.new }
    ensures units { counted_steps search.new.log.steps ≡ counted_steps search.old.log.steps }
{
    search.is_search();
    let pair = asked.pair;
    if search.is_known(search.before(asked.rel, pair.attr, pair.earlier, pair.later)) {
        return Ok(());
    }
    match search.bring(alloc, list_of(spec, asked), When::Next, guides) {
        Ok(_) => Ok(()),
        Err(error) => Err(error),
    }
}

// The list in which the rows of an asked pair stand.
fn list_of(spec: &Specification, asked: Asked) -> ListId
    requires { IsAskedPair spec.now.relations asked }
    ensures { IsListOf spec.now.relations result }
{
    let rows = &spec.relations()[asked.rel.0 as usize].rows;
    ListId {
        rel: asked.rel,
        attr: asked.pair.attr,
        ent: rows.row(asked.pair.earlier).entity,
    }
}

// Decides whether the value of a row is the current one of its entity, once the list of its rows is brought in where it is not
// known.
fn decide_current(
    alloc: Global,
    search: &mut Search<'_>,
    place: CurrentRow,
    units: &mut Budget,
    guides: &mut Guides,
) -> Result<Outcome, NoMemory>
    requires { IsCurrentGoal search.old.spec search.old.wanted place }
    ensures gone { HasGone search.old search.new }
    ensures units { counted_steps search.new.log.steps + units.new ≡ counted_steps search.old.log.steps + units.old }
    ensures outcome { IfOk result (TellsGoal search.new (Goal.Current place) units.new) }
{
    match bring_current(alloc, search, place, guides) {
        Ok(()) => {}
        Err(error) => return Err(error),
    }
    search.is_search();
    let lit = search.current(place.rel, place.attr, place.row);
    let outcome = search.decide(alloc, Some(lit), units, guides);
    search.is_search();
    outcome
}

// Brings in the list of a row, unless it is known that its value is the current one of its entity.
fn bring_current(
    alloc: Global,
    search: &mut Search<'_>,
    place: CurrentRow,
    guides: &mut Guides,
) -> Result<(), NoMemory>
    requires { IsCurrentGoal search.old.spec search.old.wanted place }
    ensures gone { HasGone search.old search.new }
    ensures units { counted_steps search.new.log.steps ≡ counted_steps search.old.log.steps }
{
    search.is_search();
    let CurrentRow {
        rel,
        attr,
        ent,
        row,
    } = place;
    if search.is_known(search.current(rel, attr, row)) {
        return Ok(());
    }
    match search.bring(alloc, ListId { rel, attr, ent }, When::Next, guides) {
        Ok(_) => Ok(()),
        Err(error) => Err(error),
    }
}
