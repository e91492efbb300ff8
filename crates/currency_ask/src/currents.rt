ghost use Rattle.std.specs.Prelude.{◌≡◌, ◌+◌, ℕ, IfOk, map};
ghost use Rattle.current_claims.specs.Claims.{IsDifference};
ghost use Rattle.refutation_log.specs.Counted.{counted_steps};
ghost use Rattle.search_logs.specs.SearchLogs.{IsWithin};
ghost use Rattle.spec_model.specs.Consistent.{IsConsistent};
ghost use Rattle.spec_model.specs.Questions.{AreAskedRelations};
ghost use Rattle.spec_model.specs.declared.question.Question.TheVariants as asked;
ghost use Rattle.currency_ask.specs.Reported.{IsReported, IsSearchFor};
ghost use Rattle.currency_ask.specs.Deciding.{AreValuesIn, HasDecided};

use crate::deciding::{Decided, decide_all};
use crate::goal::{Goal, GoalList};
use crate::reporting::{ended, listed, proved, two};
use certain_answers::discard;
use currency_base::NoMemory;
use current_claims::{
    Claims, CurrentPlace, CurrentRow, CurrentRowList, claims_of, first_difference,
};
use order_search::{Outcome, Search};
use report_model::{Report, Verdict};
use search_logs::completions_are_writable;
use solver_guides::Guides;
use spec_model::{Completion, RelList, Specification};
use std::alloc::Global;
use watch_solver::Budget;

/// What is claimed of current values, and the same as goals.
#[derive(Drop)]
pub(crate) struct AskedValues {
    claims: Claims,
    goals: GoalList,
}

// The most items that a report lists.
const MOST_ITEMS: usize = 4_294_967_294;

/// The report on the current tuples of asked relations, once a consistent completion is found. A second one is looked
/// for from the opposite of the first guess; where both have the same values, each value is decided.
pub(crate) fn same(
    alloc: Global,
    spec: &Specification,
    rels: &RelList,
    mut search: Search<'_>,
    first: Completion,
    mut units: Budget,
    budget: u64,
    guides: &mut Guides,
) -> Result<Report, NoMemory>
    requires spec { search.spec ≡ spec.now }
    requires asked { AreAskedRelations spec.now.relations rels.now }
    requires first { IsConsistent spec.now first }
    requires asked_for { IsSearchFor (asked.Same rels.now) search }
    requires units { counted_steps search.log.steps + units ≡ budget }
    ensures { IfOk result (IsReported spec.now (asked.Same rels.now) budget) }
{
    search.is_search();
    match search.turn(alloc, guides) {
        Ok(()) => {}
        Err(error) => {
            discard(search);
            return Err(error);
        }
    }
    match search.decide(alloc, None, &mut units, guides) {
        Ok(Outcome::Model { completion, .. }) => compared(
            alloc, spec, rels, search, first, completion, units, budget, guides,
        ),
        Ok(Outcome::Proved(_)) => unreachable!(),
        Ok(outcome) => ended(alloc, search, outcome, budget),
        Err(error) => {
            discard(search);
            Err(error)
        }
    }
}

// The report, once two consistent completions are found.
fn compared(
    alloc: Global,
    spec: &Specification,
    rels: &RelList,
    search: Search<'_>,
    first: Completion,
    second: Completion,
    units: Budget,
    budget: u64,
    guides: &mut Guides,
) -> Result<Report, NoMemory>
    requires spec { search.spec ≡ spec.now }
    requires asked { AreAskedRelations spec.now.relations rels.now }
    requires first { IsConsistent spec.now first }
    requires second { IsConsistent spec.now second }
    requires asked_for { IsSearchFor (asked.Same rels.now) search }
    requires units { counted_steps search.log.steps + units ≡ budget }
    ensures { IfOk result (IsReported spec.now (asked.Same rels.now) budget) }
{
    search.is_search();
    match first_difference(spec, rels, &first, &second) {
        Some(place) => {
            discard(search);
            differ(alloc, spec, rels, place, first, second)
        }
        None => claimed(alloc, spec, rels, search, first, units, budget, guides),
    }
}

// The same, where each value of the first completion is decided, up to the first that differs in another one.
fn claimed(
    alloc: Global,
    spec: &Specification,
    rels: &RelList,
    mut search: Search<'_>,
    first: Completion,
    mut units: Budget,
    budget: u64,
    guides: &mut Guides,
) -> Result<Report, NoMemory>
    requires spec { search.spec ≡ spec.now }
    requires asked { AreAskedRelations spec.now.relations rels.now }
    requires first { IsConsistent spec.now first }
    requires asked_for { IsSearchFor (asked.Same rels.now) search }
    requires units { counted_steps search.log.steps + units ≡ budget }
    ensures { IfOk result (IsReported spec.now (asked.Same rels.now) budget) }
{
    let values = match asked_values(alloc, spec, rels, &first) {
        Ok(values) => values,
        Err(error) => {
            discard(search);
            return Err(error);
        }
    };
    match decide_all(alloc, spec, &mut search, &values.goals, &mut units, guides) {
        Ok(decided) => reported(alloc, spec, rels, values, search, decided, first, budget),
        Err(error) => {
            discard(search);
            Err(error)
        }
    }
}

// What a completion claims of current values, and that as goals.
fn asked_values(
    alloc: Global,
    spec: &Specification,
    rels: &RelList,
    first: &Completion,
) -> Result<AskedValues, NoMemory>
    requires asked { AreAskedRelations spec.now.relations rels.now }
    requires first { IsConsistent spec.now first.now }
    ensures { IfOk result (AreValuesIn spec.now rels.now first.now) }
{
    let claims = match claims_of(alloc, spec, rels, first) {
        Ok(claims) => claims,
        Err(error) => return Err(error),
    };
    if claims.items.len() > MOST_ITEMS {
        return Err(NoMemory);
    }
    match goals_of(alloc, &claims.rows) {
        Ok(goals) => Ok(AskedValues { claims, goals }),
        Err(error) => Err(error),
    }
}

// The report, once the values are decided.
fn reported(
    alloc: Global,
    spec: &Specification,
    rels: &RelList,
    values: AskedValues,
    search: Search<'_>,
    decided: Decided,
    first: Completion,
    budget: u64,
) -> Result<Report, NoMemory>
    requires spec { search.spec ≡ spec.now }
    requires asked { AreAskedRelations spec.now.relations rels.now }
    requires first { IsConsistent spec.now first }
    requires asked_for { IsSearchFor (asked.Same rels.now) search }
    requires values { AreValuesIn spec.now rels.now first values }
    requires outcome { HasDecided search values.goals budget decided }
    ensures { IfOk result (IsReported spec.now (asked.Same rels.now) budget) }
{
    search.is_search();
    let AskedValues { claims, goals } = values;
    match decided {
        Decided::Fails { place, completion } => {
            discard(search);
            let at = place_of(*claims.rows.get(place));
            differ(alloc, spec, rels, at, first, completion)
        }
        Decided::Ended(outcome) => ended(alloc, search, outcome, budget),
        Decided::Proved(steps) => {
            let verdict = Verdict::Same(claims.items);
            proved(alloc, search, &goals, &steps, verdict, first)
        }
    }
}

// That the value of each row is the current one, as goals.
fn goals_of(alloc: Global, rows: &CurrentRowList) -> Result<GoalList, NoMemory>
    ensures { IfOk result (λ goals. goals ≡ map Goal.Current rows.now) }
{
    let mut goals = GoalList::new(alloc);
    for place in 0..rows.len() {
        match goals.push(Goal::Current(*rows.get(place))) {
            Ok(()) => {}
            Err(error) => return Err(error),
        }
    }
    Ok(goals)
}

// The place of a row.
fn place_of(row: CurrentRow) -> CurrentPlace
    ensures { result ≡ record { rel = row.rel; attr = row.attr; ent = row.ent } }
{
    CurrentPlace {
        rel: row.rel,
        attr: row.attr,
        ent: row.ent,
    }
}

// Two consistent completions have different current values at a place: both are listed.
fn differ(
    alloc: Global,
    spec: &Specification,
    rels: &RelList,
    place: CurrentPlace,
    first: Completion,
    second: Completion,
) -> Result<Report, NoMemory>
    requires within { IsWithin spec.now }
    requires first { IsConsistent spec.now first }
    requires second { IsConsistent spec.now second }
    requires differ { IsDifference spec.now.relations rels.now first second place.rel place.attr place.ent }
    ensures { (budget : ℕ) → IfOk result (IsReported spec.now (asked.Same rels.now) budget) }
{
    completions_are_writable();
    let CurrentPlace { rel, attr, ent } = place;
    match two(alloc, first, second) {
        Ok(completions) => Ok(listed(alloc, Verdict::NotSame { rel, attr, ent }, completions)),
        Err(error) => Err(error),
    }
}
