ghost use Rattle.std.specs.Prelude.{◌≡◌, ◌+◌, ◌<◌, ◌≤◌, ℕ, List, IfOk, OnOk, Some, true, length, slice_get};
ghost use Rattle.answer_laws.specs.Answered.{IsAnswerIn};
ghost use Rattle.currency_base.specs.declared.value.Value.{Value};
ghost use Rattle.answer_candidates.specs.Candidates.{AreCandidates};
ghost use Rattle.order_search.specs.Searches.{HasGone};
ghost use Rattle.query_model.specs.Fitting.{IsQuery};
ghost use Rattle.refutation_log.specs.Counted.{counted_steps};
ghost use Rattle.spec_model.specs.Consistent.{IsConsistent};
ghost use Rattle.certain_answers.specs.Deciding.{IsRefuted, IsSearchFor, StaysGone, TellsDecisions, TellsStep};

use crate::aiming::aim;
use crate::deciding::decide_answer;
use crate::lists::bring_near;
use crate::settled::settle;
use answer_candidates::Candidates;
use currency_base::{ItemList, NoMemory};
use current_tuples::current;
use order_search::{Outcome, Search, When};
use query_model::Query;
use solver_guides::Guides;
use spec_model::{Completion, Specification};
use std::alloc::Global;
use ucq_answers::IndexedInstance;
use watch_solver::Budget;

/// What became of a candidate.
#[derive(Clone, Copy)]
pub enum Decision {
    /// It is no answer over a listed completion.
    Gone,
    /// It is an answer in every consistent completion: the step that is its unit.
    Proved(u32),
}

/// What became of one candidate after another.
pub type DecisionList = ItemList<Decision>;

/// What deciding candidates came to.
#[derive(Drop)]
pub enum Decisions {
    /// Each is decided.
    All(DecisionList),
    /// The search came to an end.
    Ended(Outcome),
}

/// Decides each candidate that is an answer over all listed completions, once the lists of rows that it is about are brought
/// in. The axioms of settled matches come first, so those candidates are known and cost no decision. The guides begin from
/// a guess in which no candidate is an answer, so that a completion which refutes one refutes as many others as it may; it
/// is looked at for all.
pub fn decide_left(
    alloc: Global,
    spec: &Specification,
    query: &Query,
    candidates: &mut Candidates,
    search: &mut Search<'_>,
    units: &mut Budget,
    guides: &mut Guides,
) -> Result<Decisions, NoMemory>
    requires query { IsQuery query.now }
    requires search { IsSearchFor spec.now query.now search.old }
    requires answers { search.old.posed.answers ≡ candidates.old.tuples }
    requires candidates { AreCandidates spec.now query.now candidates.old }
    requires few { length candidates.old.tuples ≤ 1000000 }
    ensures gone { HasGone search.old search.new }
    ensures tuples { candidates.new.tuples ≡ candidates.old.tuples }
    ensures candidates { IfOk result (λ _. AreCandidates spec.now query.now candidates.new) }
    ensures units { counted_steps search.new.log.steps + units.new ≡ counted_steps search.old.log.steps + units.old }
    ensures outcome { IfOk result (TellsDecisions search.new candidates.new units.new) }
{
    let first = candidates.first();
    let instance = match current(alloc, spec, first) {
        Ok(instance) => instance,
        Err(error) => return Err(error),
    };
    let indexed = match IndexedInstance::new(alloc, query, &instance) {
        Ok(indexed) => indexed,
        Err(error) => return Err(error),
    };
    match settle(
        alloc, spec, query, &indexed, candidates, first, search, guides,
    ) {
        Ok(()) => {}
        Err(error) => return Err(error),
    }
    match aim(alloc, spec, query, &indexed, candidates, 0, search, guides) {
        Ok(()) => {}
        Err(error) => return Err(error),
    }
    decide_each(
        alloc, spec, query, &indexed, candidates, search, units, guides,
    )
}

// Decides each candidate that is left.
fn decide_each(
    alloc: Global,
    spec: &Specification,
    query: &Query,
    indexed: &IndexedInstance<'_>,
    candidates: &mut Candidates,
    search: &mut Search<'_>,
    units: &mut Budget,
    guides: &mut Guides,
) -> Result<Decisions, NoMemory>
    requires query { IsQuery query.now }
    requires search { IsSearchFor spec.now query.now search.old }
    requires answers { search.old.posed.answers ≡ candidates.old.tuples }
    requires candidates { AreCandidates spec.now query.now candidates.old }
    requires few { length candidates.old.tuples ≤ 1000000 }
    ensures gone { HasGone search.old search.new }
    ensures tuples { candidates.new.tuples ≡ candidates.old.tuples }
    ensures candidates { IfOk result (λ _. AreCandidates spec.now query.now candidates.new) }
    ensures units { counted_steps search.new.log.steps + units.new ≡ counted_steps search.old.log.steps + units.old }
    ensures outcome { IfOk result (TellsDecisions search.new candidates.new units.new) }
{
    let mut decisions = DecisionList::new(alloc);
    for place in 0..candidates.tuples().len() {
        match step_for(
            alloc, spec, query, indexed, candidates, place, search, units, guides,
        ) {
            Ok(Step::Decided(decision)) => match decisions.push(decision) {
                Ok(()) => {}
                Err(error) => return Err(error),
            },
            Ok(Step::Ended(outcome)) => return Ok(Decisions::Ended(outcome)),
            Err(error) => return Err(error),
        }
    }
    Ok(Decisions::All(decisions))
}

// What deciding a candidate came to.
#[derive(Drop)]
pub(crate) enum Step {
    // what became of the candidate
    Decided(Decision),
    // the search came to an end
    Ended(Outcome),
}

// Decides the candidate at a place, unless it is gone.
fn step_for(
    alloc: Global,
    spec: &Specification,
    query: &Query,
    indexed: &IndexedInstance<'_>,
    candidates: &mut Candidates,
    place: usize,
    search: &mut Search<'_>,
    units: &mut Budget,
    guides: &mut Guides,
) -> Result<Step, NoMemory>
    requires query { IsQuery query.now }
    requires search { IsSearchFor spec.now query.now search.old }
    requires answers { search.old.posed.answers ≡ candidates.old.tuples }
    requires candidates { AreCandidates spec.now query.now candidates.old }
    requires place { place < length candidates.old.tuples }
    requires few { length candidates.old.tuples ≤ 1000000 }
    ensures gone { HasGone search.old search.new }
    ensures tuples { candidates.new.tuples ≡ candidates.old.tuples }
    ensures candidates { IfOk result (λ _. AreCandidates spec.now query.now candidates.new) }
    ensures stays { IfOk result (λ _. StaysGone candidates.old candidates.new) }
    ensures units { counted_steps search.new.log.steps + units.new ≡ counted_steps search.old.log.steps + units.old }
    ensures outcome { IfOk result (TellsStep search.new candidates.new place units.new) }
{
    if candidates.is_gone(place) {
        return Ok(Step::Decided(Decision::Gone));
    }
    match bring_unknown(alloc, spec, query, indexed, search, place as u32, guides) {
        Ok(()) => {}
        Err(error) => return Err(error),
    }
    match decide_answer(
        alloc,
        spec,
        query,
        candidates,
        search,
        place as u32,
        units,
        guides,
    ) {
        Ok(Outcome::Proved(step)) => Ok(Step::Decided(Decision::Proved(step))),
        Ok(Outcome::Model { completion, .. }) => refuted(
            alloc, spec, query, indexed, candidates, place, search, completion, guides,
        ),
        Ok(Outcome::Empty(step)) => Ok(Step::Ended(Outcome::Empty(step))),
        Ok(Outcome::Spent) => Ok(Step::Ended(Outcome::Spent)),
        Err(error) => Err(error),
    }
}

// Brings in the lists of a candidate, unless it is known to be an answer.
fn bring_unknown(
    alloc: Global,
    spec: &Specification,
    query: &Query,
    indexed: &IndexedInstance<'_>,
    search: &mut Search<'_>,
    place: u32,
    guides: &mut Guides,
) -> Result<(), NoMemory>
    requires search { IsSearchFor spec.now query.now search.old }
    requires place { place < length search.old.posed.answers }
    ensures gone { HasGone search.old search.new }
    ensures units { counted_steps search.new.log.steps ≡ counted_steps search.old.log.steps }
{
    if search.is_known(search.answer(place)) {
        return Ok(());
    }
    match bring_near(
        alloc,
        spec,
        query,
        indexed,
        search,
        place,
        When::Next,
        guides,
    ) {
        Ok(_) => Ok(()),
        Err(error) => Err(error),
    }
}

// Notes which candidates a completion refutes, that at a place among them, and aims at those that are left.
fn refuted(
    alloc: Global,
    spec: &Specification,
    query: &Query,
    indexed: &IndexedInstance<'_>,
    candidates: &mut Candidates,
    place: usize,
    search: &mut Search<'_>,
    completion: Completion,
    guides: &mut Guides,
) -> Result<Step, NoMemory>
    requires query { IsQuery query.now }
    requires search { IsSearchFor spec.now query.now search.old }
    requires answers { search.old.posed.answers ≡ candidates.old.tuples }
    requires candidates { AreCandidates spec.now query.now candidates.old }
    requires place { place < length candidates.old.tuples }
    requires few { length candidates.old.tuples ≤ 1000000 }
    requires refuted { IsRefuted search.old place completion }
    ensures gone { HasGone search.old search.new }
    ensures tuples { candidates.new.tuples ≡ candidates.old.tuples }
    ensures candidates { IfOk result (λ _. AreCandidates spec.now query.now candidates.new) }
    ensures stays { IfOk result (λ _. StaysGone candidates.old candidates.new) }
    ensures units { counted_steps search.new.log.steps ≡ counted_steps search.old.log.steps }
    ensures outcome { (left : ℕ) → IfOk result (TellsStep search.new candidates.new place left) }
{
    match note(alloc, spec, query, candidates, completion) {
        Ok(()) => {}
        Err(error) => return Err(error),
    }
    match aim(
        alloc,
        spec,
        query,
        indexed,
        candidates,
        place as u32,
        search,
        guides,
    ) {
        Ok(()) => Ok(Step::Decided(Decision::Gone)),
        Err(error) => Err(error),
    }
}

/// Notes which candidates are no answers over one more consistent completion.
pub fn note(
    alloc: Global,
    spec: &Specification,
    query: &Query,
    candidates: &mut Candidates,
    completion: Completion,
) -> Result<(), NoMemory>
    requires query { IsQuery query.now }
    requires consistent { IsConsistent spec.now completion }
    requires candidates { AreCandidates spec.now query.now candidates.old }
    ensures tuples { candidates.new.tuples ≡ candidates.old.tuples }
    ensures candidates { OnOk result (AreCandidates spec.now query.now candidates.new) }
    ensures stays { OnOk result (StaysGone candidates.old candidates.new) }
    ensures refuted { (place : ℕ) (tuple : List Value) → slice_get candidates.old.tuples place ≡ Some tuple
        → (IsAnswerIn spec.now.relations query.now tuple completion → ⊥) → OnOk result
        (slice_get candidates.new.gone place ≡ Some true) }
{
    let instance = match current(alloc, spec, &completion) {
        Ok(instance) => instance,
        Err(error) => return Err(error),
    };
    let indexed = match IndexedInstance::new(alloc, query, &instance) {
        Ok(indexed) => indexed,
        Err(error) => return Err(error),
    };
    candidates.note(alloc, &indexed, completion)
}
