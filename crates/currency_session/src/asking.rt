// Kept reports that are tried, and questions that are searched for.

ghost use Rattle.std.specs.Prelude.{◌≡◌, Err, IfNone, IfOk, IfSome, All, true, false};
ghost use Rattle.currency_ask.specs.Answered.{HasTooMany};
ghost use Rattle.currency_ask.specs.Reported.{IsReported};
ghost use Rattle.currency_ask.specs.declared.fault.AskFault.TheVariants as fault;
ghost use Rattle.currency_session.specs.Sessions.{IsFirstShown, IsKeptReport, NoneShows};
ghost use Rattle.currency_session.specs.Starts.{IsStart};
ghost use Rattle.report_verify.specs.Shown.{ShowsVerdict};
ghost use Rattle.search_logs.specs.SearchLogs.{IsWithin};
ghost use Rattle.spec_model.specs.Completion.{Rankings};
ghost use Rattle.spec_model.specs.Consistent.{IsConsistent};
ghost use Rattle.spec_model.specs.Questions.{IsQuestionOn};

use crate::knowing::{known_copy, learn};
use crate::looks::{has_turned, may_show};
use crate::start::Start;
use currency_ask::{AskFault, answer, answer_from};
use currency_base::NoMemory;
use log_form::literals_are_of_statements;
use report_model::Report;
use report_verify::{VerifyFault, verify};
use solver_guides::Guides;
use spec_model::{Asked, Completion, Question, Specification};
use std::alloc::Global;

/// The place of the first of these reports that shows its verdict, as `verify` sees; none, where none does. One whose first
/// completion has a given pair turned round, this one, is not judged.
pub(crate) fn first_shown(
    alloc: Global,
    spec: &Specification,
    question: &Question,
    turned: Option<Asked>,
    kept: &[Report],
) -> Result<Option<usize>, NoMemory>
    requires question { IsQuestionOn spec.now.relations question.now }
    requires kept { All (IsKeptReport spec.now.relations) kept.now }
    ensures first { IfOk result (λ found. IfSome found (IsFirstShown spec.now question.now kept.now)) }
    ensures none { IfOk result (λ found. IfNone found (NoneShows spec.now question.now kept.now)) }
{
    for place in 0..kept.len() {
        if is_shown(alloc, spec, question, turned, &kept[place])? {
            return Ok(Some(place));
        }
    }
    Ok(None)
}

/// Does a report show its verdict?
fn is_shown(
    alloc: Global,
    spec: &Specification,
    question: &Question,
    turned: Option<Asked>,
    report: &Report,
) -> Result<bool, NoMemory>
    requires question { IsQuestionOn spec.now.relations question.now }
    requires kept { IsKeptReport spec.now.relations report.now }
    ensures shown { IfOk result (λ shown. shown ≡ true → ShowsVerdict spec.now question.now report.now) }
    ensures other { IfOk result (λ shown. shown ≡ false → ShowsVerdict spec.now question.now report.now → ⊥) }
{
    if !may_show(question, report) || has_turned(spec, turned, report) {
        return Ok(false);
    }
    literals_are_of_statements();
    match verify(alloc, spec, question, report) {
        Ok(()) => Ok(true),
        Err(VerifyFault::Refused { .. }) => Ok(false),
        Err(VerifyFault::NoMemory) => Err(NoMemory),
    }
}

/// The report that a search within a budget gives, which begins from a known completion where one is there.
pub(crate) fn searched(
    alloc: Global,
    spec: &Specification,
    question: &Question,
    start: &mut Start,
    kept: &[Report],
    budget: u64,
    guides: &mut Guides,
) -> Result<Report, AskFault>
    requires within { IsWithin spec.now }
    requires question { IsQuestionOn spec.now.relations question.now }
    requires start { IsStart spec.now start.old }
    requires kept { All (IsKeptReport spec.now.relations) kept.now }
    ensures answer { IfOk result (IsReported spec.now question.now budget) }
    ensures too_many { (c : Rankings) → result ≡ Err (fault.TooMany c) → HasTooMany spec.now question.now c }
    ensures start { IsStart spec.now start.new }
{
    match known_copy(alloc, spec, start, kept, budget, guides) {
        Ok(first) => told(alloc, spec, question, start, first, budget, guides),
        Err(_) => Err(AskFault::NoMemory),
    }
}

/// The report that a search gives which begins from the first completion, if one is handed in. Where none was known, one that
/// the report lists then is.
fn told(
    alloc: Global,
    spec: &Specification,
    question: &Question,
    start: &mut Start,
    first: Option<Completion>,
    budget: u64,
    guides: &mut Guides,
) -> Result<Report, AskFault>
    requires within { IsWithin spec.now }
    requires question { IsQuestionOn spec.now.relations question.now }
    requires start { IsStart spec.now start.old }
    requires first { IfSome first (IsConsistent spec.now) }
    ensures answer { IfOk result (IsReported spec.now question.now budget) }
    ensures too_many { (c : Rankings) → result ≡ Err (fault.TooMany c) → HasTooMany spec.now question.now c }
    ensures start { IsStart spec.now start.new }
{
    match begun(alloc, spec, question, first, budget, guides) {
        Ok(report) => match learn(alloc, spec, start, &report) {
            Ok(()) => Ok(report),
            Err(_) => Err(AskFault::NoMemory),
        },
        Err(fault) => Err(fault),
    }
}

/// The report that a search gives which begins from this completion, if one is handed in.
fn begun(
    alloc: Global,
    spec: &Specification,
    question: &Question,
    first: Option<Completion>,
    budget: u64,
    guides: &mut Guides,
) -> Result<Report, AskFault>
    requires within { IsWithin spec.now }
    requires question { IsQuestionOn spec.now.relations question.now }
    requires first { IfSome first (IsConsistent spec.now) }
    ensures answer { IfOk result (IsReported spec.now question.now budget) }
    ensures too_many { (c : Rankings) → result ≡ Err (fault.TooMany c) → HasTooMany spec.now question.now c }
{
    match first {
        Some(first) => answer_from(alloc, spec, question, first, budget, guides),
        None => answer(alloc, spec, question, budget, guides),
    }
}
