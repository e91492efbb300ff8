ghost use Rattle.std.specs.Prelude.{◌≡◌, ◌<◌, ◌≤◌, All, IfOk, length};
ghost use Rattle.answer_candidates.specs.Candidates.{IsOver};
ghost use Rattle.certain_answers.specs.Deciding.{IsMatchAt, IsSearchFor};
ghost use Rattle.order_search.specs.Searches.{HasGone};
ghost use Rattle.refutation_log.specs.Counted.{counted_steps};
ghost use Rattle.spec_model.specs.Completion.{IsCompletion};

use crate::matches::MatchList;
use crate::violated::answers_of;
use crate::writable::is_writable;
use answer_candidates::Candidates;
use currency_base::NoMemory;
use order_search::Search;
use query_model::{Match, Query};
use solver_guides::Guides;
use spec_model::{Completion, Specification};
use std::alloc::Global;
use ucq_answers::IndexedInstance;

// The most matches of all candidates together that are looked at.
const MANY_MATCHES: usize = 1_048_576;

/// Brings in the axiom of a match over a completion of each candidate that has a settled one: all current values of which
/// it speaks are known with nothing assumed. So it is known that the candidate is an answer, and it costs no decision over
/// all variables. No unit is taken.
pub(crate) fn settle(
    alloc: Global,
    spec: &Specification,
    query: &Query,
    indexed: &IndexedInstance<'_>,
    candidates: &Candidates,
    completion: &Completion,
    search: &mut Search<'_>,
    guides: &mut Guides,
) -> Result<(), NoMemory>
    requires search { IsSearchFor spec.now query.now search.old }
    requires marks { length candidates.now.gone ≡ length search.old.posed.answers }
    requires completion { IsCompletion spec.now.relations completion.now }
    requires over { IsOver spec.now.relations query.now completion.now indexed.now }
    ensures gone { HasGone search.old search.new }
    ensures units { counted_steps search.new.log.steps ≡ counted_steps search.old.log.steps }
{
    let mut left = MANY_MATCHES;
    for place in 0..answers_of(search) {
        if candidates.is_gone(place as usize) || search.is_known(search.answer(place)) {
            continue;
        }
        match settle_at(
            alloc, spec, query, indexed, completion, place, left, search, guides,
        ) {
            Ok(looked_at) => left = left.saturating_sub(looked_at),
            Err(error) => return Err(error),
        }
    }
    Ok(())
}

// Brings in the axiom of a settled match of the candidate at a place, if one is among so many of its matches over a
// completion. Says how many these are.
fn settle_at(
    alloc: Global,
    spec: &Specification,
    query: &Query,
    indexed: &IndexedInstance<'_>,
    completion: &Completion,
    place: u32,
    at_most: usize,
    search: &mut Search<'_>,
    guides: &mut Guides,
) -> Result<usize, NoMemory>
    requires search { IsSearchFor spec.now query.now search.old }
    requires place { place < length search.old.posed.answers }
    requires completion { IsCompletion spec.now.relations completion.now }
    requires over { IsOver spec.now.relations query.now completion.now indexed.now }
    ensures gone { HasGone search.old search.new }
    ensures units { counted_steps search.new.log.steps ≡ counted_steps search.old.log.steps }
    ensures few { IfOk result (λ looked_at. looked_at ≤ at_most) }
{
    search.is_search();
    let found = match indexed.matches_of(alloc, search.log().answers.get(place as usize), at_most) {
        Ok(found) => found,
        Err(error) => return Err(error),
    };
    match bring_first(alloc, completion, &found, place, search, guides) {
        Ok(()) => Ok(found.len()),
        Err(error) => Err(error),
    }
}

// Brings in the axiom of the first of these matches that is settled, if one is.
fn bring_first(
    alloc: Global,
    completion: &Completion,
    found: &MatchList,
    place: u32,
    search: &mut Search<'_>,
    guides: &mut Guides,
) -> Result<(), NoMemory>
    requires { All (λ m. IsMatchAt search.old completion.now m place) found.now }
    ensures gone { HasGone search.old search.new }
    ensures units { counted_steps search.new.log.steps ≡ counted_steps search.old.log.steps }
{
    for at in 0..found.len() {
        match bring_settled(alloc, completion, found.get(at), place, search, guides) {
            Ok(true) => return Ok(()),
            Ok(false) => {}
            Err(error) => return Err(error),
        }
    }
    Ok(())
}

// Brings in the axiom of a match, if it is settled and can be written. Says whether it did.
fn bring_settled(
    alloc: Global,
    completion: &Completion,
    found: &Match,
    place: u32,
    search: &mut Search<'_>,
    guides: &mut Guides,
) -> Result<bool, NoMemory>
    requires { IsMatchAt search.old completion.now found.now place }
    ensures gone { HasGone search.old search.new }
    ensures units { counted_steps search.new.log.steps ≡ counted_steps search.old.log.steps }
{
    if !is_writable(found) {
        return Ok(false);
    }
    search.add_settled(alloc, completion, found, place, guides)
}
