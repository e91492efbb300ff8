ghost use Rattle.std.specs.Prelude.{◌≡◌, ◌+◌, ◌<◌, ◌≤◌, ℕ, All, Err, IfOk, Some, length, map, slice_get};
ghost use Rattle.answer_candidates.specs.Candidates.{AreCandidates};
ghost use Rattle.answer_candidates.specs.declared.candidates.CandidateFault.TheVariants as candidates;
ghost use Rattle.certain_answers.specs.Deciding.{AreDecidedUpTo, IsSearchFor as IsSearchOf};
ghost use Rattle.certain_answers.specs.declared.decisions.Decision.TheVariants as decision;
ghost use Rattle.refutation_log.specs.Counted.{counted_steps};
ghost use Rattle.search_logs.specs.SearchLogs.{IsWithin};
ghost use Rattle.query_model.specs.declared.query.Query.{Query};
ghost use Rattle.spec_model.specs.Completion.{Rankings};
ghost use Rattle.spec_model.specs.Consistent.{IsConsistent};
ghost use Rattle.spec_model.specs.Queries.{IsQueryOn};
ghost use Rattle.spec_model.specs.Spec.{Spec};
ghost use Rattle.spec_model.specs.declared.question.Question.TheVariants as asked;
ghost use Rattle.currency_ask.specs.Answered.{AreAnswersOverSome, HasTooMany};
ghost use Rattle.order_search.specs.Searches.{HasGone};
ghost use Rattle.currency_ask.specs.Answering.{AreUnitsAt, IsFirst, IsProvedAt, TellsSecond};
ghost use Rattle.currency_ask.specs.Reported.{IsReported};
ghost use Rattle.currency_ask.specs.declared.fault.AskFault.TheVariants as fault;
ghost use Rattle.currency_ask.specs.declared.goal.Goal.TheVariants.{Answer};

use crate::AskFault;
use crate::goal::{Goal, GoalList};
use crate::reporting::{derived, ended, listed};
use answer_candidates::{CandidateFault, Candidates, PlaceList, left_are_common};
use certain_answers::{Decision, DecisionList, Decisions, decide_left, discard, note, search_for};
use currency_base::{NoMemory, TupleList};
use order_search::{Outcome, Search};
use query_model::Query;
use refutation_log::HintList;
use report_model::{Report, Verdict};
use search_logs::completions_are_writable;
use solver_guides::Guides;
use spec_model::{Completion, Specification};
use std::alloc::Global;
use watch_solver::Budget;

// The most completions that a report lists.
const MOST_COMPLETIONS: usize = 4_294_967_294;

/// The report on the answers of a query, once a consistent completion is found. Its answers over that completion are the
/// candidates; a second search gives each of them a statement. A completion from the opposite of the first guess is looked
/// at, and then each candidate that is an answer over all completions so far is decided; one that refutes it is looked at for
/// all.
pub(crate) fn answers(
    alloc: Global,
    spec: &Specification,
    query: &Query,
    first: Completion,
    budget: u64,
    guides: &mut Guides,
) -> Result<Report, AskFault>
    requires within { IsWithin spec.now }
    requires query { IsQueryOn spec.now.relations query.now }
    requires first { IsConsistent spec.now first }
    ensures report { IfOk result (IsReported spec.now (asked.Answers query.now) budget) }
    ensures too_many { (c : Rankings) → result ≡ Err (fault.TooMany c) → HasTooMany spec.now (asked.Answers query.now) c }
{
    match Candidates::new(alloc, spec, query, first) {
        Ok(candidates) => match searched(alloc, spec, query, candidates, budget, guides) {
            Ok(report) => Ok(report),
            Err(_) => Err(AskFault::NoMemory),
        },
        Err(told) => Err(of_candidates(told)),
    }
}

// Why a query is not answered whose candidates are not found.
fn of_candidates(told: CandidateFault) -> AskFault
    ensures { (c : Rankings) → result ≡ fault.TooMany c → told ≡ candidates.TooMany c }
{
    match told {
        CandidateFault::TooMany(completion) => AskFault::TooMany(completion),
        CandidateFault::NoMemory => AskFault::NoMemory,
    }
}

// The report, by a search in which each candidate has a statement; where there is none, without it.
fn searched(
    alloc: Global,
    spec: &Specification,
    query: &Query,
    candidates: Candidates,
    budget: u64,
    guides: &mut Guides,
) -> Result<Report, NoMemory>
    requires within { IsWithin spec.now }
    requires query { IsQueryOn spec.now.relations query.now }
    requires candidates { AreCandidates spec.now query.now candidates }
    requires first { IsFirst spec.now query.now candidates }
    ensures { IfOk result (IsReported spec.now (asked.Answers query.now) budget) }
{
    if candidates.tuples().len() == 0 {
        return Ok(unanswered(alloc, candidates));
    }
    match search_for(alloc, spec, query, &candidates, candidates.first(), guides) {
        Ok(search) => second_compared(alloc, spec, query, candidates, search, budget, guides),
        Err(error) => Err(error),
    }
}

// The report on a query that no tuple answers over the first completion, which shows that by itself.
fn unanswered(alloc: Global, candidates: Candidates) -> Report
    requires none { length candidates.tuples ≡ 0 }
    requires few { length candidates.completions ≤ 4294967294 }
    ensures { (s : Spec) (query : Query) (budget : ℕ) → IsWithin s → AreCandidates s query candidates
        → IsReported s (asked.Answers query) budget result }
{
    completions_are_writable();
    let completions = candidates.into_completions();
    listed(alloc, Verdict::Answers(TupleList::new(alloc)), completions)
}

// The report, once a completion from the opposite of the first guess is compared.
fn second_compared(
    alloc: Global,
    spec: &Specification,
    query: &Query,
    mut candidates: Candidates,
    mut search: Search<'_>,
    budget: u64,
    guides: &mut Guides,
) -> Result<Report, NoMemory>
    requires within { IsWithin spec.now }
    requires query { IsQueryOn spec.now.relations query.now }
    requires candidates { AreCandidates spec.now query.now candidates }
    requires search { IsSearchOf spec.now query.now search }
    requires posed { search.posed.answers ≡ candidates.tuples }
    requires few { length candidates.tuples ≤ 1000000 }
    requires over { AreAnswersOverSome spec.now query.now candidates.tuples }
    requires uncounted { counted_steps search.log.steps ≡ 0 }
    ensures { IfOk result (IsReported spec.now (asked.Answers query.now) budget) }
{
    let mut units = Budget::new(budget);
    match second(alloc, &mut search, &mut units, guides) {
        Ok(Outcome::Model { completion, .. }) => {
            match note(alloc, spec, query, &mut candidates, completion) {
                Ok(()) => all_decided(
                    alloc, spec, query, candidates, search, units, budget, guides,
                ),
                Err(error) => {
                    discard(search);
                    Err(error)
                }
            }
        }
        Ok(Outcome::Proved(_)) => unreachable!(),
        Ok(Outcome::Empty(place)) => ended(alloc, search, Outcome::Empty(place), budget),
        Ok(Outcome::Spent) => ended(alloc, search, Outcome::Spent, budget),
        Err(error) => {
            discard(search);
            Err(error)
        }
    }
}

// A consistent completion from the opposite of the first guess; or the end of the search.
fn second(
    alloc: Global,
    search: &mut Search<'_>,
    units: &mut Budget,
    guides: &mut Guides,
) -> Result<Outcome, NoMemory>
    requires { counted_steps search.old.log.steps ≡ 0 }
    ensures gone { HasGone search.old search.new }
    ensures units { counted_steps search.new.log.steps + units.new ≡ counted_steps search.old.log.steps + units.old }
    ensures outcome { IfOk result (TellsSecond search.new units.new) }
{
    match search.turn(alloc, guides) {
        Ok(()) => search.decide(alloc, None, units, guides),
        Err(error) => Err(error),
    }
}

// The report, once each candidate that is left is decided.
fn all_decided(
    alloc: Global,
    spec: &Specification,
    query: &Query,
    mut candidates: Candidates,
    mut search: Search<'_>,
    mut units: Budget,
    budget: u64,
    guides: &mut Guides,
) -> Result<Report, NoMemory>
    requires within { IsWithin spec.now }
    requires query { IsQueryOn spec.now.relations query.now }
    requires candidates { AreCandidates spec.now query.now candidates }
    requires search { IsSearchOf spec.now query.now search }
    requires posed { search.posed.answers ≡ candidates.tuples }
    requires few { length candidates.tuples ≤ 1000000 }
    requires over { AreAnswersOverSome spec.now query.now candidates.tuples }
    requires units { counted_steps search.log.steps + units ≡ budget }
    ensures { IfOk result (IsReported spec.now (asked.Answers query.now) budget) }
{
    match decide_left(
        alloc,
        spec,
        query,
        &mut candidates,
        &mut search,
        &mut units,
        guides,
    ) {
        Ok(Decisions::All(decisions)) => {
            reported(alloc, spec, query, candidates, search, &decisions)
        }
        Ok(Decisions::Ended(outcome)) => ended(alloc, search, outcome, budget),
        Err(error) => {
            discard(search);
            Err(error)
        }
    }
}

// The report, once each candidate that is left has its unit.
fn reported(
    alloc: Global,
    spec: &Specification,
    query: &Query,
    candidates: Candidates,
    search: Search<'_>,
    decisions: &DecisionList,
) -> Result<Report, NoMemory>
    requires within { IsWithin spec.now }
    requires query { IsQueryOn spec.now.relations query.now }
    requires candidates { AreCandidates spec.now query.now candidates }
    requires search { IsSearchOf spec.now query.now search }
    requires posed { search.posed.answers ≡ candidates.tuples }
    requires few { length candidates.tuples ≤ 1000000 }
    requires over { AreAnswersOverSome spec.now query.now candidates.tuples }
    requires decided { AreDecidedUpTo search candidates (length candidates.tuples) decisions.now }
    ensures { (budget : ℕ) → counted_steps search.entry.log.steps ≤ budget → IfOk result
        (IsReported spec.now (asked.Answers query.now) budget) }
{
    left_are_common();
    search.is_search();
    let left = match candidates.left(alloc) {
        Ok(left) => left,
        Err(error) => return unreported(search, error),
    };
    let tuples = match candidates.tuples_at(alloc, &left) {
        Ok(tuples) => tuples,
        Err(error) => return unreported(search, error),
    };
    let units = match units_at(alloc, decisions, &left) {
        Ok(units) => units,
        Err(error) => return unreported(search, error),
    };
    let goals = match goals_of(alloc, &left) {
        Ok(goals) => goals,
        Err(error) => return unreported(search, error),
    };
    let completions = candidates.into_completions();
    if completions.len() > MOST_COMPLETIONS {
        return unreported(search, NoMemory);
    }
    let verdict = Verdict::Answers(tuples);
    derived(alloc, search, &goals, &units, verdict, completions)
}

// Want of memory, where a search is not needed any more.
fn unreported(search: Search<'_>, error: NoMemory) -> Result<Report, NoMemory>
    ensures { result ≡ Err error }
{
    discard(search);
    Err(error)
}

// The units of the candidates at these places, which are proved.
fn units_at(
    alloc: Global,
    decisions: &DecisionList,
    places: &PlaceList,
) -> Result<HintList, NoMemory>
    requires { All (IsProvedAt decisions.now) places.now }
    ensures { IfOk result (AreUnitsAt decisions.now places.now (length places.now)) }
{
    let mut units = HintList::new(alloc);
    for at in 0..places.len() {
        match units.push(unit_at(decisions, *places.get(at))) {
            Ok(()) => {}
            Err(error) => return Err(error),
        }
    }
    Ok(units)
}

// The unit of the candidate at a place, which is proved.
fn unit_at(decisions: &DecisionList, place: u32) -> u32
    requires { IsProvedAt decisions.now place }
    ensures { slice_get decisions.now place ≡ Some (decision.Proved result) }
{
    match decisions.get(place as usize) {
        Decision::Proved(step) => *step,
        Decision::Gone => unreachable!(),
    }
}

// That the tuples at these places are answers, as goals.
fn goals_of(alloc: Global, places: &PlaceList) -> Result<GoalList, NoMemory>
    ensures { IfOk result (λ goals. goals ≡ map Answer places.now) }
{
    let mut goals = GoalList::new(alloc);
    for at in 0..places.len() {
        match goals.push(Goal::Answer(*places.get(at))) {
            Ok(()) => {}
            Err(error) => return Err(error),
        }
    }
    Ok(goals)
}
