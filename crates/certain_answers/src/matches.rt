ghost use Rattle.std.specs.Prelude.{◌≡◌, ◌≤◌, ◌<◌, All, IfOk, OnOk, Some, length, slice_get};
ghost use Rattle.answer_candidates.specs.Candidates.{AreAnswersIn};
ghost use Rattle.match_clauses.specs.Matched.{IsMatchIn};
ghost use Rattle.order_search.specs.Searches.{HasGone};
ghost use Rattle.query_model.specs.Answers.{IsAnswer};
ghost use Rattle.query_model.specs.Fitting.{IsQuery};
ghost use Rattle.refutation_log.specs.Counted.{counted_steps};
ghost use Rattle.spec_model.specs.Completion.{IsCompletion};
ghost use Rattle.spec_model.specs.Consistent.{IsConsistent};
ghost use Rattle.certain_answers.specs.Deciding.{AreMatches, AreMatchesOver, IsMatchAt, IsMatchOver, IsSearchFor};

use crate::writable::is_writable;
use answer_laws::instances_exist;
use currency_base::{ItemList, NoMemory, TupleList};
use current_tuples::current;
use order_search::Search;
use query_model::{Match, Query};
use solver_guides::Guides;
use spec_model::{Completion, Specification};
use std::alloc::Global;
use ucq_answers::IndexedInstance;

/// Matches, one per candidate.
pub type MatchList = ItemList<Match>;

/// How each of the answers over a completion is one.
pub fn first_matches(
    alloc: Global,
    spec: &Specification,
    query: &Query,
    completion: &Completion,
    tuples: &TupleList,
) -> Result<MatchList, NoMemory>
    requires query { IsQuery query.now }
    requires consistent { IsConsistent spec.now completion.now }
    requires answers { AreAnswersIn spec.now.relations query.now completion.now tuples.now }
    ensures { IfOk result (AreMatches spec.now.relations query.now completion.now tuples.now) }
{
    instances_exist();
    let instance = match current(alloc, spec, completion) {
        Ok(instance) => instance,
        Err(error) => return Err(error),
    };
    let indexed = match IndexedInstance::new(alloc, query, &instance) {
        Ok(indexed) => indexed,
        Err(error) => return Err(error),
    };
    matches_of(alloc, &indexed, tuples)
}

// One match of each of these answers over an instance that is indexed.
fn matches_of(
    alloc: Global,
    indexed: &IndexedInstance<'_>,
    tuples: &TupleList,
) -> Result<MatchList, NoMemory>
    requires { All (IsAnswer indexed.now.query indexed.now.instance) tuples.now }
    ensures { IfOk result (AreMatchesOver indexed.now tuples.now (length tuples.now)) }
{
    let mut matches = MatchList::new(alloc);
    for place in 0..tuples.len() {
        let found = match match_at(alloc, indexed, tuples, place) {
            Ok(found) => found,
            Err(error) => return Err(error),
        };
        match matches.push(found) {
            Ok(()) => {}
            Err(error) => return Err(error),
        }
    }
    Ok(matches)
}

// A match of the answer at a place.
fn match_at(
    alloc: Global,
    indexed: &IndexedInstance<'_>,
    tuples: &TupleList,
    place: usize,
) -> Result<Match, NoMemory>
    requires place { place < length tuples.now }
    requires answers { All (IsAnswer indexed.now.query indexed.now.instance) tuples.now }
    ensures { IfOk result (IsMatchOver indexed.now tuples.now place) }
{
    match indexed.match_of(alloc, tuples.get(place)) {
        Ok(Some(found)) => Ok(found),
        Ok(None) => unreachable!(),
        Err(error) => Err(error),
    }
}

/// Brings in the axioms of these matches, one of each of the posed answers. No unit is taken. More than 4,294,967,294 values
/// or entities of a match count as want of memory.
pub fn bring_matches(
    alloc: Global,
    spec: &Specification,
    query: &Query,
    completion: &Completion,
    matches: &MatchList,
    search: &mut Search<'_>,
    guides: &mut Guides,
) -> Result<(), NoMemory>
    requires search { IsSearchFor spec.now query.now search.old }
    requires completion { IsCompletion spec.now.relations completion.now }
    requires matches { AreMatches spec.now.relations query.now completion.now search.old.posed.answers matches.now }
    requires few { length matches.now ≤ 1000000 }
    ensures gone { HasGone search.old search.new }
    ensures units { counted_steps search.new.log.steps ≡ counted_steps search.old.log.steps }
{
    for place in 0..matches.len() {
        match bring(
            alloc,
            completion,
            matches.get(place),
            place as u32,
            search,
            guides,
        ) {
            Ok(()) => {}
            Err(error) => return Err(error),
        }
    }
    Ok(())
}

/// Brings in the axiom of a match.
pub(crate) fn bring(
    alloc: Global,
    completion: &Completion,
    found: &Match,
    place: u32,
    search: &mut Search<'_>,
    guides: &mut Guides,
) -> Result<(), NoMemory>
    requires { IsMatchAt search.old completion.now found.now place }
    ensures gone { HasGone search.old search.new }
    ensures units { counted_steps search.new.log.steps ≡ counted_steps search.old.log.steps }
{
    if !is_writable(found) {
        return Err(NoMemory);
    }
    match search.add_match(alloc, completion, found, place, guides) {
        Ok(()) => Ok(()),
        Err(error) => Err(error),
    }
}
