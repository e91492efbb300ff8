ghost use Rattle.std.specs.Prelude.{◌≡◌, ◌+◌, ◌<◌, IfOk, IfNone, IfSome, Some, length, slice_get};
ghost use Rattle.refutation_log.specs.Counted.{counted_steps};
ghost use Rattle.query_model.specs.Fitting.{IsQuery};
ghost use Rattle.spec_model.specs.Consistent.{IsConsistent};
ghost use Rattle.order_search.specs.Searches.{HasGone, IsAnswerCounter};
ghost use Rattle.match_clauses.specs.Matched.{IsMatchIn};
ghost use Rattle.answer_laws.specs.Answered.{IsAnswerIn};
ghost use Rattle.currency_base.specs.declared.value.Value.{Value};
ghost use Rattle.certain_answers.specs.Deciding.{EachMatch, IsMatchAt, IsSearchFor, TellsAnswer};

use crate::matched::{Matched, bring_others, matched_over};
use crate::violated::bring_violated;
use crate::writable::is_writable;
use answer_candidates::Candidates;
use currency_base::{Assignment, NoMemory};
use order_search::{Outcome, Search};
use query_model::Query;
use solver_guides::Guides;
use spec_model::{Completion, Specification};
use std::alloc::Global;
use watch_solver::Budget;

/// Decides whether the tuple at a place of the posed answers is an answer in every consistent completion. Where a model
/// makes its statement false though it is an answer there, the axioms of its matches are brought in, of which the first takes a
/// unit; so a model that is answered is one over which it is no answer. Those of other candidates that the model violates
/// come in beside them. More than 4,294,967,294 values or entities of the first match count as want of memory.
pub fn decide_answer(
    alloc: Global,
    spec: &Specification,
    query: &Query,
    candidates: &Candidates,
    search: &mut Search<'_>,
    place: u32,
    units: &mut Budget,
    guides: &mut Guides,
) -> Result<Outcome, NoMemory>
    requires query { IsQuery query.now }
    requires search { IsSearchFor spec.now query.now search.old }
    requires marks { length candidates.now.gone ≡ length search.old.posed.answers }
    requires place { place < length search.old.posed.answers }
    ensures gone { HasGone search.old search.new }
    ensures units { counted_steps search.new.log.steps + units.new ≡ counted_steps search.old.log.steps + units.old }
    ensures outcome { IfOk result (TellsAnswer search.new place units.new) }
{
    loop {
        match decided_once(alloc, spec, query, candidates, search, place, units, guides) {
            Ok(Some(outcome)) => return Ok(outcome),
            Ok(None) => {}
            Err(error) => return Err(error),
        }
    }
}

// One decision; nothing, where axioms of matches were brought in.
fn decided_once(
    alloc: Global,
    spec: &Specification,
    query: &Query,
    candidates: &Candidates,
    search: &mut Search<'_>,
    place: u32,
    units: &mut Budget,
    guides: &mut Guides,
) -> Result<Option<Outcome>, NoMemory>
    requires query { IsQuery query.now }
    requires search { IsSearchFor spec.now query.now search.old }
    requires marks { length candidates.now.gone ≡ length search.old.posed.answers }
    requires place { place < length search.old.posed.answers }
    ensures gone { HasGone search.old search.new }
    ensures units { counted_steps search.new.log.steps + units.new ≡ counted_steps search.old.log.steps + units.old }
    ensures outcome { IfOk result (λ found. IfSome found (TellsAnswer search.new place units.new)) }
    ensures taken { IfOk result (λ found. IfNone found (units.new < units.old)) }
{
    search.is_search();
    let lit = search.answer(place);
    match search.decide(alloc, Some(lit), units, guides) {
        Ok(Outcome::Model { truths, completion }) => checked_model(
            alloc, spec, query, candidates, search, place, truths, completion, units, guides,
        ),
        Ok(Outcome::Proved(step)) => Ok(Some(Outcome::Proved(step))),
        Ok(Outcome::Empty(step)) => Ok(Some(Outcome::Empty(step))),
        Ok(Outcome::Spent) => Ok(Some(Outcome::Spent)),
        Err(error) => Err(error),
    }
}

// What a model tells in which the statement of a tuple is false: that the tuple is no answer there, or that no unit is left for
// the axioms of its matches, which are else brought in.
fn checked_model(
    alloc: Global,
    spec: &Specification,
    query: &Query,
    candidates: &Candidates,
    search: &mut Search<'_>,
    place: u32,
    truths: Assignment,
    completion: Completion,
    units: &mut Budget,
    guides: &mut Guides,
) -> Result<Option<Outcome>, NoMemory>
    requires query { IsQuery query.now }
    requires search { IsSearchFor spec.now query.now search.old }
    requires marks { length candidates.now.gone ≡ length search.old.posed.answers }
    requires place { place < length search.old.posed.answers }
    requires counter { IsAnswerCounter search.old place truths completion }
    ensures gone { HasGone search.old search.new }
    ensures units { counted_steps search.new.log.steps + units.new ≡ counted_steps search.old.log.steps + units.old }
    ensures outcome { IfOk result (λ found. IfSome found (TellsAnswer search.new place units.new)) }
    ensures taken { IfOk result (λ found. IfNone found (units.new < units.old)) }
{
    search.is_search();
    match matched_over(
        alloc,
        spec,
        query,
        search.log().answers.get(place as usize),
        &completion,
    ) {
        Ok(None) => Ok(Some(Outcome::Model { truths, completion })),
        Ok(Some(matched)) => demanded(
            alloc,
            spec,
            query,
            candidates,
            search,
            place,
            &truths,
            &completion,
            &matched,
            units,
            guides,
        ),
        Err(error) => Err(error),
    }
}

// Brings in the axioms of the matches of a tuple that a model violates, if a unit is left: the first takes one. Beside them come
// those of other candidates.
fn demanded(
    alloc: Global,
    spec: &Specification,
    query: &Query,
    candidates: &Candidates,
    search: &mut Search<'_>,
    place: u32,
    truths: &Assignment,
    completion: &Completion,
    matched: &Matched,
    units: &mut Budget,
    guides: &mut Guides,
) -> Result<Option<Outcome>, NoMemory>
    requires query { IsQuery query.now }
    requires search { IsSearchFor spec.now query.now search.old }
    requires marks { length candidates.now.gone ≡ length search.old.posed.answers }
    requires place { place < length search.old.posed.answers }
    requires consistent { IsConsistent spec.now completion.now }
    requires counter { IsAnswerCounter search.old place truths.now completion.now }
    requires matched { EachMatch (λ m. IsMatchAt search.old completion.now m place) matched.now }
    ensures gone { HasGone search.old search.new }
    ensures units { counted_steps search.new.log.steps + units.new ≡ counted_steps search.old.log.steps + units.old }
    ensures outcome { IfOk result (λ found. IfSome found (TellsAnswer search.new place units.new)) }
    ensures taken { IfOk result (λ found. IfNone found (units.new < units.old)) }
{
    if !is_writable(&matched.first) {
        return Err(NoMemory);
    }
    if units.left() == 0 {
        search.is_open(truths);
        return Ok(Some(Outcome::Spent));
    }
    match search.demand_match(
        alloc,
        completion,
        &matched.first,
        place,
        truths,
        units,
        guides,
    ) {
        Ok(()) => {}
        Err(error) => return Err(error),
    }
    match bring_others(alloc, completion, matched, place, search, guides) {
        Ok(()) => {}
        Err(error) => return Err(error),
    }
    match bring_violated(
        alloc, spec, query, candidates, search, place, truths, completion, guides,
    ) {
        Ok(()) => Ok(None),
        Err(error) => Err(error),
    }
}
