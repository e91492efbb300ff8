ghost use Rattle.std.specs.Prelude.{◌≡◌, ◌++◌, ◌≤◌, All, IfOk, OnOk, length, map, true};
ghost use Rattle.answer_candidates.specs.Candidates.{AreAnswersIn, AreCandidates};
ghost use Rattle.refutation_log.specs.Writable.{AreFew};
ghost use Rattle.query_model.specs.Fitting.{IsQuery};
ghost use Rattle.refutation_log.specs.Counted.{counted_steps};
ghost use Rattle.search_logs.specs.SearchLogs.{IsWithin};
ghost use Rattle.spec_model.specs.Consistent.{IsConsistent};
ghost use Rattle.currency_base.specs.Values.{IsValue};
ghost use Rattle.certain_answers.specs.Deciding.{IsSearchFor, relations_in, relations_of};

use crate::matches::{bring_matches, first_matches};
use crate::writable::are_writable;
use answer_candidates::Candidates;
use currency_base::{ItemList, NoMemory, TupleList};
use order_search::Search;
use query_model::{Atom, Query};
use solver_guides::Guides;
use spec_model::{Completion, RelList, Specification};
use std::alloc::Global;

/// A search in which the query is posed, with each answer over a consistent completion, and with the axiom of a match of each.
/// More than 4,294,967,294 values of a tuple count as want of memory.
pub fn search_for<'a>(
    alloc: Global,
    spec: &'a Specification,
    query: &'a Query,
    candidates: &Candidates,
    completion: &Completion,
    guides: &mut Guides,
) -> Result<Search<'a>, NoMemory>
    requires within { IsWithin spec.now }
    requires query { IsQuery query.now }
    requires candidates { AreCandidates spec.now query.now candidates.now }
    requires few { length candidates.now.tuples ≤ 1000000 }
    requires consistent { IsConsistent spec.now completion.now }
    requires over { AreAnswersIn spec.now.relations query.now completion.now candidates.now.tuples }
    ensures search { IfOk result (IsSearchFor spec.now query.now) }
    ensures answers { IfOk result (λ s. s.posed.answers ≡ candidates.now.tuples) }
    ensures uncounted { IfOk result (λ s. counted_steps s.log.steps ≡ 0) }
{
    let matches = match first_matches(alloc, spec, query, completion, candidates.tuples()) {
        Ok(matches) => matches,
        Err(error) => return Err(error),
    };
    let mut search = match posed(alloc, spec, query, candidates, guides) {
        Ok(search) => search,
        Err(error) => return Err(error),
    };
    match bring_matches(
        alloc,
        spec,
        query,
        completion,
        &matches,
        &mut search,
        guides,
    ) {
        Ok(()) => Ok(search),
        Err(error) => {
            discard(search);
            Err(error)
        }
    }
}

// The search, without the matches.
fn posed<'a>(
    alloc: Global,
    spec: &'a Specification,
    query: &'a Query,
    candidates: &Candidates,
    guides: &mut Guides,
) -> Result<Search<'a>, NoMemory>
    requires within { IsWithin spec.now }
    requires candidates { AreCandidates spec.now query.now candidates.now }
    requires few { length candidates.now.tuples ≤ 1000000 }
    ensures search { IfOk result (IsSearchFor spec.now query.now) }
    ensures answers { IfOk result (λ s. s.posed.answers ≡ candidates.now.tuples) }
    ensures uncounted { IfOk result (λ s. counted_steps s.log.steps ≡ 0) }
{
    if !are_writable(candidates.tuples()) {
        return Err(NoMemory);
    }
    let tuples = match candidates.copied(alloc) {
        Ok(tuples) => tuples,
        Err(error) => return Err(error),
    };
    let currents = match relations_of(alloc, query) {
        Ok(currents) => currents,
        Err(error) => return Err(error),
    };
    Search::new(alloc, spec, Some(query), currents, tuples, guides)
}

/// The relations of a query's atoms.
pub fn relations_of(alloc: Global, query: &Query) -> Result<RelList, NoMemory>
    ensures { IfOk result (λ relations. relations ≡ relations_of query.now) }
{
    let mut relations = RelList::new(alloc);
    for place in 0..query.disjuncts.len() {
        match push_relations(&query.disjuncts.get(place).atoms, &mut relations) {
            Ok(()) => {}
            Err(error) => return Err(error),
        }
    }
    Ok(relations)
}

// Puts the relations of atoms after others.
fn push_relations(atoms: &ItemList<Atom>, relations: &mut RelList) -> Result<(), NoMemory>
    ensures { OnOk result (relations.new ≡ relations.old ++ map (λ a. a.relation) atoms.now) }
{
    for place in 0..atoms.len() {
        match relations.push(atoms.get(place).relation) {
            Ok(()) => {}
            Err(error) => return Err(error),
        }
    }
    Ok(())
}

/// A search that is not needed any more. A path that let it go out of scope by itself would drop each of its lists in the
/// goals of the function it stands in.
pub fn discard(search: Search<'_>) {
    let _log = search.log();
}
