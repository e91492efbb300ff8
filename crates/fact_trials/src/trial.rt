ghost use Rattle.std.specs.Prelude.{◌≡◌, ◌<◌, ℕ, Some, IfOk, length, slice_get, false};
ghost use Rattle.currency_ask.specs.declared.fault.AskFault.TheVariants.{TooMany};
ghost use Rattle.report_model.specs.Verdicts.{is_decided, kind_of};
ghost use Rattle.search_logs.specs.SearchLogs.{IsWithin};
ghost use Rattle.spec_model.specs.Completion.{Rankings};
ghost use Rattle.unit_questions.specs.Facts.{IsFactQuestion};
ghost use Rattle.fact_trials.specs.Failing.{IsTelling};
ghost use Rattle.fact_trials.specs.Trials.{IsSpent, IsTrial};

use crate::failing::failing_place;
use currency_ask::{AskFault, answer};
use currency_base::NoMemory;
use report_model::{CompletionList, Report};
use solver_guides::Guides;
use spec_model::{Completion, Question, Specification};
use std::alloc::Global;

/// What is told of a fact.
#[derive(Drop)]
pub enum Trial {
    /// It holds in every consistent completion.
    Holds,
    /// It fails in this consistent completion.
    Fails(Completion),
    /// The budget is spent, as this report says.
    Open(Report),
}

/// Whether the fact that a question asks for holds in every consistent completion, within a budget of clauses that may be
/// learned. The guides steer the search, whatever they pick.
pub fn try_fact(
    alloc: Global,
    spec: &Specification,
    question: &Question,
    budget: u64,
    guides: &mut Guides,
) -> Result<Trial, NoMemory>
    requires within { IsWithin spec.now }
    requires question { IsFactQuestion spec.now.relations question.now }
    ensures { IfOk result (IsTrial spec.now question.now budget) }
{
    match answer(alloc, spec, question, budget, guides) {
        Ok(report) => tried(alloc, spec, question, report),
        Err(error) => Err(wanting(error)),
    }
}

/// What a report tells of the fact.
fn tried(
    alloc: Global,
    spec: &Specification,
    question: &Question,
    report: Report,
) -> Result<Trial, NoMemory>
    requires question { IsFactQuestion spec.now.relations question.now }
    requires telling { IsTelling spec.now question.now report }
    ensures { (budget : ℕ) → (is_decided (kind_of report.verdict) ≡ false → IsSpent spec.now question.now budget report)
        → IfOk result (IsTrial spec.now question.now budget) }
{
    if !report.verdict.kind().is_decided() {
        return Ok(Trial::Open(report));
    }
    match failing_place(alloc, spec, question, &report) {
        Ok(None) => Ok(Trial::Holds),
        Ok(Some(place)) => Ok(Trial::Fails(listed(report.completions, place))),
        Err(error) => Err(error),
    }
}

/// The completion that is listed at a place.
fn listed(completions: CompletionList, place: usize) -> Completion
    requires { place < length completions }
    ensures { slice_get completions place ≡ Some result }
{
    completions.into_items().remove(place)
}

/// A fault at a question for one fact, which has no more than one answer.
fn wanting(error: AskFault) -> NoMemory
    requires { (c : Rankings) → error ≡ TooMany c → ⊥ }
{
    match error {
        AskFault::TooMany(_) => unreachable!(),
        AskFault::NoMemory => NoMemory,
    }
}
