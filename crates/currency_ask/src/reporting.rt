ghost use Rattle.std.specs.Prelude.{◌≡◌, ◌≤◌, ◌∷◌, ℕ, [], All, Some, length, slice_get, IfOk};
ghost use Rattle.refutation_log.specs.Counted.{counted_steps};
ghost use Rattle.refutation_log.specs.Steps.{clauses_of};
ghost use Rattle.report_verify.specs.Supported.{IsOneOf, needs_of};
ghost use Rattle.report_model.specs.Writable.{IsWritableVerdict};
ghost use Rattle.search_logs.specs.SearchLogs.{HasFewSteps};
ghost use Rattle.spec_model.specs.Completion.{Rankings};
ghost use Rattle.spec_model.specs.Consistent.{IsConsistent};
ghost use Rattle.spec_model.specs.declared.question.Question.{Question};
ghost use Rattle.currency_ask.specs.Goals.{AreClaims, AreProved, IsGoalOn};
ghost use Rattle.currency_ask.specs.Reported.{HasEnded, HasSpent, IsListedFor, IsReported, IsSearchFor, ListsAlone};

use crate::goal::GoalList;
use axiom_agreement::{axioms_agree, literals_agree};
use checked_logs::trimmed_logs_are_accepted;
use currency_base::NoMemory;
use log_laws::counted_steps_are_few;
use log_trim::trim;
use order_search::{Outcome, Search};
use refutation_log::{HintList, Log};
use report_model::{CompletionList, Report, Verdict};
use search_logs::{
    completions_are_writable, search_logs_are_accepted, search_logs_are_right,
    search_logs_are_writable, trimmed_logs_are_writable,
};
use spec_model::Completion;
use std::alloc::Global;

/// The report of a search that came to an end without a completion, which had a budget of so many units.
pub(crate) fn ended(
    alloc: Global,
    search: Search<'_>,
    outcome: Outcome,
    budget: u64,
) -> Result<Report, NoMemory>
    requires { HasEnded search budget outcome }
    ensures { (q : Question) → IsSearchFor q search.entry → IfOk result (IsReported search.entry.spec q budget) }
{
    search.is_search();
    match outcome {
        Outcome::Empty(place) => inconsistent(alloc, search, place),
        Outcome::Spent => Ok(undecided(alloc, search, budget)),
        Outcome::Model { .. } => unreachable!(),
        Outcome::Proved(_) => unreachable!(),
    }
}

// A step that is the empty clause: what it needs of the log is all that stands in the report.
fn inconsistent(alloc: Global, search: Search<'_>, place: u32) -> Result<Report, NoMemory>
    requires few { HasFewSteps search.log }
    requires empty { slice_get (clauses_of search.log.steps) place ≡ Some [] }
    ensures { (q : Question) (budget : ℕ) → IsSearchFor q search.entry → counted_steps search.entry.log.steps ≤ budget
        → IfOk result (IsReported search.entry.spec q budget) }
{
    search_logs_are_accepted();
    trimmed_logs_are_accepted();
    trimmed_logs_are_writable();
    search_logs_are_right();
    search.is_search();
    let log = search.into_log();
    let trimmed = match trim(alloc, &log, &[place]) {
        Ok(trimmed) => trimmed,
        Err(error) => return Err(error),
    };
    Ok(Report {
        verdict: Verdict::Inconsistent,
        completions: CompletionList::new(alloc),
        log: trimmed.log,
    })
}

// No unit is left: the whole log shows that the budget was spent on new clauses.
fn undecided(alloc: Global, search: Search<'_>, budget: u64) -> Report
    requires few { HasFewSteps search.log }
    requires spent { HasSpent search budget }
    ensures { (q : Question) → IsSearchFor q search.entry → IsReported search.entry.spec q budget result }
{
    axioms_agree();
    counted_steps_are_few();
    search_logs_are_accepted();
    search_logs_are_writable();
    search_logs_are_right();
    search.is_search();
    Report {
        verdict: Verdict::Undecided(budget),
        completions: CompletionList::new(alloc),
        log: search.into_log(),
    }
}

/// Each claim of a verdict is derived: one completion is listed, and what the units of the claims need of the log is
/// all that stands in the report.
pub(crate) fn proved(
    alloc: Global,
    search: Search<'_>,
    goals: &GoalList,
    steps: &HintList,
    verdict: Verdict,
    completion: Completion,
) -> Result<Report, NoMemory>
    requires goals { All (IsGoalOn search.spec search.wanted) goals.now }
    requires proved { AreProved search goals.now steps.now }
    requires consistent { IsConsistent search.spec completion }
    requires writable { IsWritableVerdict search.spec.relations verdict }
    ensures { (q : Question) (budget : ℕ) → IsSearchFor q search.entry → counted_steps search.entry.log.steps ≤ budget
        → IsOneOf search.entry.spec q verdict
        → AreClaims search.entry.spec search.entry.posed goals.now (needs_of q verdict)
        → IsListedFor search.entry.spec q verdict (completion ∷ []) → IfOk result (IsReported search.entry.spec q budget) }
{
    search.is_search();
    match one(alloc, completion) {
        Ok(completions) => derived(alloc, search, goals, steps, verdict, completions),
        Err(error) => Err(error),
    }
}

/// The same, with a list of completions.
pub(crate) fn derived(
    alloc: Global,
    search: Search<'_>,
    goals: &GoalList,
    steps: &HintList,
    verdict: Verdict,
    completions: CompletionList,
) -> Result<Report, NoMemory>
    requires goals { All (IsGoalOn search.spec search.wanted) goals.now }
    requires proved { AreProved search goals.now steps.now }
    requires listed { All (IsConsistent search.spec) completions }
    requires few { length completions ≤ 4294967294 }
    requires writable { IsWritableVerdict search.spec.relations verdict }
    ensures { (q : Question) (budget : ℕ) → IsSearchFor q search.entry → counted_steps search.entry.log.steps ≤ budget
        → IsOneOf search.entry.spec q verdict
        → AreClaims search.entry.spec search.entry.posed goals.now (needs_of q verdict)
        → IsListedFor search.entry.spec q verdict completions → IfOk result (IsReported search.entry.spec q budget) }
{
    search.is_search();
    trimmed(alloc, search, goals, steps, verdict, completions)
}

// The same, where the steps have numbers.
fn trimmed(
    alloc: Global,
    search: Search<'_>,
    goals: &GoalList,
    steps: &HintList,
    verdict: Verdict,
    completions: CompletionList,
) -> Result<Report, NoMemory>
    requires goals { All (IsGoalOn search.spec search.wanted) goals.now }
    requires proved { AreProved search goals.now steps.now }
    requires few_steps { HasFewSteps search.log }
    requires listed { All (IsConsistent search.spec) completions }
    requires few { length completions ≤ 4294967294 }
    requires writable { IsWritableVerdict search.spec.relations verdict }
    ensures { (q : Question) (budget : ℕ) → IsSearchFor q search.entry → counted_steps search.entry.log.steps ≤ budget
        → IsOneOf search.entry.spec q verdict
        → AreClaims search.entry.spec search.entry.posed goals.now (needs_of q verdict)
        → IsListedFor search.entry.spec q verdict completions → IfOk result (IsReported search.entry.spec q budget) }
{
    search_logs_are_accepted();
    trimmed_logs_are_accepted();
    trimmed_logs_are_writable();
    search_logs_are_right();
    completions_are_writable();
    literals_agree();
    search.is_search();
    let log = search.into_log();
    let needed = match trim(alloc, &log, steps.as_slice()) {
        Ok(needed) => needed,
        Err(error) => return Err(error),
    };
    Ok(Report {
        verdict,
        completions,
        log: needed.log,
    })
}

/// A list of one completion.
pub(crate) fn one(alloc: Global, completion: Completion) -> Result<CompletionList, NoMemory>
    ensures { IfOk result (λ list. list ≡ completion ∷ []) }
{
    let mut completions = CompletionList::new(alloc);
    match completions.push(completion) {
        Ok(()) => Ok(completions),
        Err(error) => Err(error),
    }
}

/// A list of two completions.
pub(crate) fn two(
    alloc: Global,
    first: Completion,
    second: Completion,
) -> Result<CompletionList, NoMemory>
    ensures { IfOk result (λ list. list ≡ first ∷ second ∷ []) }
{
    let mut completions = match one(alloc, first) {
        Ok(completions) => completions,
        Err(error) => return Err(error),
    };
    match completions.push(second) {
        Ok(()) => Ok(completions),
        Err(error) => Err(error),
    }
}

/// The report of a verdict that completions show: no log is needed.
pub(crate) fn listed(alloc: Global, verdict: Verdict, completions: CompletionList) -> Report
    ensures { ListsAlone verdict completions result }
{
    Report {
        verdict,
        completions,
        log: Log::new(alloc),
    }
}
