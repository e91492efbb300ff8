ghost use Rattle.std.specs.Prelude.{◌≡◌, ◌+◌, ◌≤◌, ℕ, All, IfOk, IfSome, None, length, map, take};
ghost use Rattle.search_logs.specs.SearchLogs.{IsWithin};
ghost use Rattle.spec_model.specs.Completion.{IsCompletion};
ghost use Rattle.spec_model.specs.Consistent.{IsConsistent};
ghost use Rattle.spec_model.specs.Questions.{IsAskedPair};
ghost use Rattle.spec_model.specs.declared.question.Question.TheVariants as asked;
ghost use Rattle.refutation_log.specs.Counted.{counted_steps};
ghost use Rattle.currency_ask.specs.Goals.{AreProved};
ghost use Rattle.currency_ask.specs.Reported.{IsReported, IsSearchFor};
ghost use Rattle.report_verify.specs.Right.{EachConsistent, PairHolds};
ghost use Rattle.currency_ask.specs.Deciding.{AreFirstPairs, FailsFirst, HasDecided, ProvedHold};

use crate::deciding::{Decided, decide_all};
use crate::goal::{Goal, GoalList};
use crate::reporting::{ended, listed, one, proved};
use axiom_agreement::literals_agree;
use certain_answers::discard;
use currency_base::NoMemory;
use order_search::Search;
use ranked_pairs::pair_holds;
use refutation_log::HintList;
use report_model::{Report, Verdict};
use report_verify::shown_is_right;
use search_logs::{completions_are_writable, search_logs_are_accepted};
use solver_guides::Guides;
use spec_model::{AskedList, Completion, Specification};
use std::alloc::Global;
use watch_solver::Budget;

/// The report on asked pairs, once a consistent completion is found. The first pair that fails in it is the one that is
/// named, unless one before it fails in another completion; where none fails, each is derived.
pub(crate) fn certain(
    alloc: Global,
    spec: &Specification,
    pairs: &AskedList,
    mut search: Search<'_>,
    first: Completion,
    mut units: Budget,
    budget: u64,
    guides: &mut Guides,
) -> Result<Report, NoMemory>
    requires spec { search.spec ≡ spec.now }
    requires asked { All (IsAskedPair spec.now.relations) pairs.now }
    requires first { IsConsistent spec.now first }
    requires asked_for { IsSearchFor (asked.Certain pairs.now) search }
    requires units { counted_steps search.log.steps + units ≡ budget }
    ensures { IfOk result (IsReported spec.now (asked.Certain pairs.now) budget) }
{
    search.is_search();
    let failing = first_failing(spec, pairs, &first);
    let goals = match goals_of(alloc, pairs, failing.unwrap_or(pairs.len())) {
        Ok(goals) => goals,
        Err(error) => {
            discard(search);
            return Err(error);
        }
    };
    match decide_all(alloc, spec, &mut search, &goals, &mut units, guides) {
        Ok(decided) => reported(
            alloc, spec, pairs, failing, &goals, search, decided, first, budget,
        ),
        Err(error) => {
            discard(search);
            Err(error)
        }
    }
}

// The report, once the pairs up to the first that fails in a completion are decided.
fn reported(
    alloc: Global,
    spec: &Specification,
    pairs: &AskedList,
    failing: Option<usize>,
    goals: &GoalList,
    search: Search<'_>,
    decided: Decided,
    first: Completion,
    budget: u64,
) -> Result<Report, NoMemory>
    requires spec { search.spec ≡ spec.now }
    requires asked { All (IsAskedPair spec.now.relations) pairs.now }
    requires first { IsConsistent spec.now first }
    requires asked_for { IsSearchFor (asked.Certain pairs.now) search }
    requires failing { IfSome failing (FailsFirst pairs.now first) }
    requires goals { AreFirstPairs pairs.now failing goals.now }
    requires outcome { HasDecided search goals.now budget decided }
    ensures { IfOk result (IsReported spec.now (asked.Certain pairs.now) budget) }
{
    search.is_search();
    match decided {
        Decided::Fails { place, completion } => {
            proved_pairs_hold(&search);
            discard(search);
            fails_at(alloc, spec, pairs, place, completion)
        }
        Decided::Ended(outcome) => ended(alloc, search, outcome, budget),
        Decided::Proved(steps) => {
            pairs_derived(alloc, spec, pairs, failing, goals, search, &steps, first)
        }
    }
}

// The report, once the pairs before the first that fails in a completion are derived; all of them, if none fails.
fn pairs_derived(
    alloc: Global,
    spec: &Specification,
    pairs: &AskedList,
    failing: Option<usize>,
    goals: &GoalList,
    search: Search<'_>,
    steps: &HintList,
    first: Completion,
) -> Result<Report, NoMemory>
    requires spec { search.spec ≡ spec.now }
    requires asked { All (IsAskedPair spec.now.relations) pairs.now }
    requires first { IsConsistent spec.now first }
    requires asked_for { IsSearchFor (asked.Certain pairs.now) search }
    requires failing { IfSome failing (FailsFirst pairs.now first) }
    requires goals { AreFirstPairs pairs.now failing goals.now }
    requires proved { AreProved search goals.now steps.now }
    ensures { (budget : ℕ) → counted_steps search.entry.log.steps ≤ budget → IfOk result
        (IsReported spec.now (asked.Certain pairs.now) budget) }
{
    search.is_search();
    match failing {
        Some(place) => {
            proved_pairs_hold(&search);
            discard(search);
            fails_at(alloc, spec, pairs, place, first)
        }
        None => proved(alloc, search, goals, steps, Verdict::Certain, first),
    }
}

// No work: pairs that a search in which no query is posed has proved hold in every consistent completion.
fn proved_pairs_hold(search: &Search<'_>)
    requires { search.now.posed.query ≡ None }
    ensures { ProvedHold search.now }
{
    literals_agree();
    search_logs_are_accepted();
    shown_is_right();
    search.is_search();
}

// The place of the first pair that fails in a completion.
fn first_failing(spec: &Specification, pairs: &AskedList, completion: &Completion) -> Option<usize>
    requires asked { All (IsAskedPair spec.now.relations) pairs.now }
    requires completion { IsCompletion spec.now.relations completion.now }
    ensures { IfSome result (FailsFirst pairs.now completion.now) }
{
    for place in 0..pairs.len() {
        if !pair_holds(spec, completion, *pairs.get(place)) {
            return Some(place);
        }
    }
    None
}

// The first pairs, so many, as goals.
fn goals_of(alloc: Global, pairs: &AskedList, count: usize) -> Result<GoalList, NoMemory>
    requires { count ≤ length pairs.now }
    ensures { IfOk result (λ goals. goals ≡ map Goal.Pair (take count pairs.now)) }
{
    let mut goals = GoalList::new(alloc);
    for place in 0..count {
        match goals.push(Goal::Pair(*pairs.get(place))) {
            Ok(()) => {}
            Err(error) => return Err(error),
        }
    }
    Ok(goals)
}

// The pair at a place fails in a consistent completion, which is listed.
fn fails_at(
    alloc: Global,
    spec: &Specification,
    pairs: &AskedList,
    place: usize,
    completion: Completion,
) -> Result<Report, NoMemory>
    requires within { IsWithin spec.now }
    requires asked { All (IsAskedPair spec.now.relations) pairs.now }
    requires consistent { IsConsistent spec.now completion }
    requires fails { FailsFirst pairs.now completion place }
    requires others { All (λ other. EachConsistent spec.now (PairHolds other)) (take place pairs.now) }
    ensures { (budget : ℕ) → IfOk result (IsReported spec.now (asked.Certain pairs.now) budget) }
{
    completions_are_writable();
    let _relations = spec.relations();
    let pair = *pairs.get(place);
    match one(alloc, completion) {
        Ok(completions) => Ok(listed(alloc, Verdict::NotCertain(pair), completions)),
        Err(error) => Err(error),
    }
}
