ghost use Rattle.std.specs.Prelude.{◌≡◌, ◌≤◌, ◌∷◌, [], IfOk, IfSome, length};
ghost use Rattle.answer_candidates.specs.Candidates.{AreAnswersIn, AreCandidates};
ghost use Rattle.bound_spec.specs.Growth.{IsWithinLimits};
ghost use Rattle.certain_answers.specs.Deciding.{IsSearchFor};
ghost use Rattle.query_model.specs.Fitting.{IsQuery};
ghost use Rattle.spec_model.specs.Completion.{Rankings};
ghost use Rattle.spec_model.specs.Consistent.{IsConsistent};

use crate::counts::{BUDGET, Counts, counted, is_within};
use answer_candidates::Candidates;
use certain_answers::{decide_left, discard, note, relations_of, search_for};
use currency_base::{NoMemory, TupleList};
use order_search::{Outcome, Search};
use query_model::Query;
use solver_guides::Guides;
use spec_model::{Completion, Specification};
use std::alloc::Global;
use watch_solver::Budget;

/// What deciding the answers of a query came to, if a consistent completion is found, and not more answers over it than are gone
/// through.
pub fn decided(
    alloc: Global,
    spec: &Specification,
    query: &Query,
    guides: &mut Guides,
) -> Result<Option<Counts>, NoMemory>
    requires within { IsWithinLimits spec.now }
    requires query { IsQuery query.now }
{
    match first(alloc, spec, query, guides) {
        Ok(Some(completion)) => match Candidates::new(alloc, spec, query, completion) {
            Ok(candidates) => searched(alloc, spec, query, candidates, guides),
            Err(_) => Ok(None),
        },
        Ok(None) => Ok(None),
        Err(error) => Err(error),
    }
}

// The consistent completion that is found first.
fn first(
    alloc: Global,
    spec: &Specification,
    query: &Query,
    guides: &mut Guides,
) -> Result<Option<Completion>, NoMemory>
    requires within { IsWithinLimits spec.now }
    ensures { IfOk result (λ found. IfSome found (IsConsistent spec.now)) }
{
    is_within(spec);
    let currents = match relations_of(alloc, query) {
        Ok(currents) => currents,
        Err(error) => return Err(error),
    };
    let none = TupleList::new(alloc);
    match Search::new(alloc, spec, Some(query), currents, none, guides) {
        Ok(search) => found(alloc, search, guides),
        Err(error) => Err(error),
    }
}

// The consistent completion that a search finds.
fn found(
    alloc: Global,
    mut search: Search<'_>,
    guides: &mut Guides,
) -> Result<Option<Completion>, NoMemory>
    ensures { IfOk result (λ found. IfSome found (IsConsistent search.entry.spec)) }
{
    let mut units = Budget::new(BUDGET);
    let outcome = search.decide(alloc, None, &mut units, guides);
    discard(search);
    match outcome {
        Ok(Outcome::Model { completion, .. }) => Ok(Some(completion)),
        Ok(_) => Ok(None),
        Err(error) => Err(error),
    }
}

// What deciding these candidates comes to.
fn searched(
    alloc: Global,
    spec: &Specification,
    query: &Query,
    mut candidates: Candidates,
    guides: &mut Guides,
) -> Result<Option<Counts>, NoMemory>
    requires within { IsWithinLimits spec.now }
    requires query { IsQuery query.now }
    requires candidates { AreCandidates spec.now query.now candidates }
    requires few { length candidates.tuples ≤ 1000000 }
    requires first { (c : Rankings) × (candidates.completions ≡ c ∷ []) × IsConsistent spec.now c × AreAnswersIn
        spec.now.relations query.now c candidates.tuples }
{
    is_within(spec);
    let mut search = match search_for(alloc, spec, query, &candidates, candidates.first(), guides) {
        Ok(search) => search,
        Err(error) => return Err(error),
    };
    let done = decide_candidates(alloc, spec, query, &mut candidates, &mut search, guides);
    let told = counted(search.log());
    discard(search);
    match done {
        Ok(unlisted) => {
            let completions = candidates.into_completions().len() as u64;
            Ok(Some(Counts {
                completions,
                // each other one refutes a candidate and is listed, or brings in the match of one
                models: completions
                    .saturating_add(told.on_demand)
                    .saturating_add(unlisted),
                ..told
            }))
        }
        Err(error) => Err(error),
    }
}

// Decides these candidates, after a completion from the opposite of the first guess: 1 where that one is not listed, else 0.
fn decide_candidates(
    alloc: Global,
    spec: &Specification,
    query: &Query,
    candidates: &mut Candidates,
    search: &mut Search<'_>,
    guides: &mut Guides,
) -> Result<u64, NoMemory>
    requires query { IsQuery query.now }
    requires search { IsSearchFor spec.now query.now search.old }
    requires answers { search.old.posed.answers ≡ candidates.old.tuples }
    requires candidates { AreCandidates spec.now query.now candidates.old }
    requires few { length candidates.old.tuples ≤ 1000000 }
{
    match search.turn(alloc, guides) {
        Ok(()) => {}
        Err(error) => return Err(error),
    }
    let mut units = Budget::new(BUDGET);
    match search.decide(alloc, None, &mut units, guides) {
        Ok(Outcome::Model { completion, .. }) => {
            match note(alloc, spec, query, candidates, completion) {
                Ok(()) => {}
                Err(error) => return Err(error),
            }
        }
        Ok(_) => return Ok(0),
        Err(error) => return Err(error),
    }
    let unlisted = u64::from(!is_some_gone(candidates));
    match decide_left(alloc, spec, query, candidates, search, &mut units, guides) {
        Ok(_) => Ok(unlisted),
        Err(error) => Err(error),
    }
}

// Is some candidate no answer over a listed completion?
fn is_some_gone(candidates: &Candidates) -> bool
    requires { length candidates.now.gone ≡ length candidates.now.tuples }
{
    for place in 0..candidates.tuples().len() {
        if candidates.is_gone(place) {
            return true;
        }
    }
    false
}
