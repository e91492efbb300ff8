//! Consistent completions that are known at first.

ghost use Rattle.std.specs.Prelude.{◌≡◌, ℕ, IfOk};
ghost use Rattle.decided_facts.specs.Decided.{TooMany};
ghost use Rattle.possible_values.specs.Steps.{IsAnswerReport, IsKnown};
ghost use Rattle.search_logs.specs.SearchLogs.{IsWithin};
ghost use Rattle.spec_model.specs.Completion.{Rankings};
ghost use Rattle.spec_model.specs.Questions.{IsQuestionOn};
ghost use Rattle.spec_model.specs.Spec.{Spec};
ghost use Rattle.spec_model.specs.declared.question.Question.{Question as Questions};
ghost use Rattle.spec_model.specs.declared.question.Question.TheVariants as asked;

use currency_base::NoMemory;
use decided_facts::{AskFault, answer};
use report_model::{CompletionList, Report, Verdict};
use solver_guides::Guides;
use spec_model::{Question, Specification};
use std::alloc::Global;

/// What is known at first.
#[derive(Drop)]
pub(crate) enum Known {
    /// There is no consistent completion.
    Inconsistent(Report),
    /// Some consistent completions.
    Completions(CompletionList),
    /// The budget is spent on whether there is one.
    Open(Report),
}

/// Of a question on current values the opposite completions that show that they are not the same, if these are found; else a
/// consistent completion.
pub(crate) fn first_known(
    alloc: Global,
    spec: &Specification,
    question: &Question,
    budget: u64,
    guides: &mut Guides,
) -> Result<Known, NoMemory>
    requires within { IsWithin spec.now }
    requires question { IsQuestionOn spec.now.relations question.now }
    ensures { IfOk result (IsKnown spec.now question.now budget) }
{
    match question {
        Question::Same(_) => match answer(alloc, spec, question, budget, guides) {
            Ok(report) => of_same(alloc, spec, report, budget, guides),
            Err(error) => Err(wanting(error)),
        },
        _ => some(alloc, spec, budget, guides),
    }
}

/// What a report on whether current values are the same makes known.
fn of_same(
    alloc: Global,
    spec: &Specification,
    report: Report,
    budget: u64,
    guides: &mut Guides,
) -> Result<Known, NoMemory>
    requires { IsWithin spec.now }
    ensures { (q : Questions) → IsAnswerReport spec.now q budget report → IfOk result (IsKnown spec.now q budget) }
{
    match &report.verdict {
        Verdict::Inconsistent => Ok(Known::Inconsistent(report)),
        Verdict::Same(_) | Verdict::NotSame { .. } => Ok(Known::Completions(report.completions)),
        _ => some(alloc, spec, budget, guides),
    }
}

/// A consistent completion, if there is one.
fn some(
    alloc: Global,
    spec: &Specification,
    budget: u64,
    guides: &mut Guides,
) -> Result<Known, NoMemory>
    requires { IsWithin spec.now }
    ensures { (q : Questions) → IfOk result (IsKnown spec.now q budget) }
{
    match answer(alloc, spec, &Question::Consistent, budget, guides) {
        Ok(report) => Ok(of_consistent(report)),
        Err(error) => Err(wanting(error)),
    }
}

/// What a report on whether there is a consistent completion makes known.
fn of_consistent(report: Report) -> Known
    ensures { (s : Spec) (budget : ℕ) → IsAnswerReport s asked.Consistent budget report
        → IsKnown s asked.Consistent budget result }
{
    match &report.verdict {
        Verdict::Inconsistent => Known::Inconsistent(report),
        Verdict::Consistent => Known::Completions(report.completions),
        _ => Known::Open(report),
    }
}

/// A fault at a question that asks for no answers, of which there are never too many.
fn wanting(error: AskFault) -> NoMemory
    requires { (c : Rankings) → error ≡ TooMany c → ⊥ }
{
    match error {
        AskFault::TooMany(_) => unreachable!(),
        AskFault::NoMemory => NoMemory,
    }
}
