ghost use Rattle.std.specs.Prelude.{◌≡◌, ◌<◌, length};
ghost use Rattle.answer_candidates.specs.Candidates.{IsOver};
ghost use Rattle.order_search.specs.Searches.{HasGone};
ghost use Rattle.query_model.specs.Fitting.{IsQuery};
ghost use Rattle.refutation_log.specs.Counted.{counted_steps};
ghost use Rattle.spec_model.specs.Completion.{IsCompletion};
ghost use Rattle.spec_model.specs.Consistent.{IsConsistent};
ghost use Rattle.certain_answers.specs.Deciding.{IsSearchFor};

use crate::aiming::aim;
use crate::lists::bring_near;
use crate::matches::bring;
use answer_candidates::Candidates;
use answer_laws::instances_exist;
use currency_base::{Assignment, NoMemory};
use current_tuples::current;
use order_search::{Search, When};
use query_model::Query;
use solver_guides::Guides;
use spec_model::{Completion, Specification};
use std::alloc::Global;
use ucq_answers::IndexedInstance;

/// Brings in the axiom of a match of each candidate, other than the one at a place, that a model violates: it makes the
/// candidate's statement false, though the candidate is an answer over the model's completion. No unit is taken. So one
/// model serves all candidates that need a match of it. Then the guides aim at the candidates from that place on, so
/// that the next model violates or refutes as many.
pub(crate) fn bring_violated(
    alloc: Global,
    spec: &Specification,
    query: &Query,
    candidates: &Candidates,
    search: &mut Search<'_>,
    place: u32,
    truths: &Assignment,
    completion: &Completion,
    guides: &mut Guides,
) -> Result<(), NoMemory>
    requires query { IsQuery query.now }
    requires search { IsSearchFor spec.now query.now search.old }
    requires marks { length candidates.now.gone ≡ length search.old.posed.answers }
    requires place { place < length search.old.posed.answers }
    requires consistent { IsConsistent spec.now completion.now }
    ensures gone { HasGone search.old search.new }
    ensures units { counted_steps search.new.log.steps ≡ counted_steps search.old.log.steps }
{
    let instance = match current(alloc, spec, completion) {
        Ok(instance) => instance,
        Err(error) => return Err(error),
    };
    let indexed = match IndexedInstance::new(alloc, query, &instance) {
        Ok(indexed) => indexed,
        Err(error) => return Err(error),
    };
    for other in 0..answers_of(search) {
        if other == place || !is_false(search, candidates, truths, other) {
            continue;
        }
        match bring_at(
            alloc, spec, query, &indexed, completion, search, other, guides,
        ) {
            Ok(()) => {}
            Err(error) => return Err(error),
        }
    }
    match aim(
        alloc, spec, query, &indexed, candidates, place, search, guides,
    ) {
        Ok(()) => {}
        Err(error) => return Err(error),
    }
    match bring_near(
        alloc,
        spec,
        query,
        &indexed,
        search,
        place,
        When::Next,
        guides,
    ) {
        Ok(_) => Ok(()),
        Err(error) => Err(error),
    }
}

/// How many answers are posed.
pub(crate) fn answers_of(search: &Search<'_>) -> u32
    ensures { result ≡ length search.now.posed.answers }
{
    search.is_search();
    search.log().answers.len() as u32
}

// Is a candidate that is not gone said to be no answer?
fn is_false(search: &Search<'_>, candidates: &Candidates, truths: &Assignment, place: u32) -> bool
    requires place { place < length search.now.posed.answers }
    requires marks { length candidates.now.gone ≡ length search.now.posed.answers }
{
    if candidates.is_gone(place as usize) {
        return false;
    }
    let var = search.answer(place).var();
    var < truths.vars() && !truths.value(var)
}

// Brings in the axiom of a match of the candidate at a place, if it is an answer over a completion.
fn bring_at(
    alloc: Global,
    spec: &Specification,
    query: &Query,
    indexed: &IndexedInstance<'_>,
    completion: &Completion,
    search: &mut Search<'_>,
    place: u32,
    guides: &mut Guides,
) -> Result<(), NoMemory>
    requires search { IsSearchFor spec.now query.now search.old }
    requires place { place < length search.old.posed.answers }
    requires completion { IsCompletion spec.now.relations completion.now }
    requires over { IsOver spec.now.relations query.now completion.now indexed.now }
    ensures gone { HasGone search.old search.new }
    ensures units { counted_steps search.new.log.steps ≡ counted_steps search.old.log.steps }
{
    search.is_search();
    match indexed.match_of(alloc, search.log().answers.get(place as usize)) {
        Ok(Some(found)) => bring(alloc, completion, &found, place, search, guides),
        Ok(None) => Ok(()),
        Err(error) => Err(error),
    }
}
