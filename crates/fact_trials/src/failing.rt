ghost use Rattle.std.specs.Prelude.{◌≡◌, [], All, IfOk, IfSome, IfNone, true, false};
ghost use Rattle.answer_laws.specs.Answered.{IsAnswerIn};
ghost use Rattle.query_model.specs.Answers.{IsAnswer};
ghost use Rattle.query_model.specs.Fitting.{IsQuery};
ghost use Rattle.report_model.specs.Verdicts.{is_decided, kind_of};
ghost use Rattle.spec_model.specs.Completion.{IsCompletion};
ghost use Rattle.unit_questions.specs.Facts.{IsFactQuestion};
ghost use Rattle.fact_trials.specs.Failing.{AreAnswersOf, IsTelling, LacksAt, TellsPlace};

use currency_base::{NoMemory, Tuple, TupleList};
use current_tuples::{current, one_current_instance};
use query_model::Query;
use report_model::{Report, Verdict};
use spec_model::{Completion, Question, Specification};
use std::alloc::Global;
use ucq_answers::{IndexedInstance, laws_of_answers};

/// The place of a listed completion in which the fact fails; none, where it holds in every consistent one.
pub(crate) fn failing_place(
    alloc: Global,
    spec: &Specification,
    question: &Question,
    report: &Report,
) -> Result<Option<usize>, NoMemory>
    requires question { IsFactQuestion spec.now.relations question.now }
    requires telling { IsTelling spec.now question.now report.now }
    requires decided { is_decided (kind_of report.now.verdict) ≡ true }
    ensures { IfOk result (TellsPlace spec.now question.now report.now.completions) }
{
    match &report.verdict {
        Verdict::Inconsistent => Ok(None),
        Verdict::Consistent => Ok(Some(0)),
        Verdict::Certain => Ok(None),
        Verdict::NotCertain(_) => Ok(Some(0)),
        Verdict::Same(_) => unreachable!(),
        Verdict::NotSame { .. } => unreachable!(),
        Verdict::Answers(tuples) => {
            place_without(alloc, spec, question, tuples, report.completions.as_slice())
        }
        Verdict::Undecided(_) => unreachable!(),
    }
}

/// The same for the answers of the question's query: it holds, where there is one.
fn place_without(
    alloc: Global,
    spec: &Specification,
    question: &Question,
    tuples: &TupleList,
    completions: &[Completion],
) -> Result<Option<usize>, NoMemory>
    requires question { IsFactQuestion spec.now.relations question.now }
    requires answers { AreAnswersOf spec.now question.now tuples.now completions.now }
    ensures { IfOk result (TellsPlace spec.now question.now completions.now) }
{
    if tuples.len() > 0 {
        return Ok(None);
    }
    match question {
        Question::Answers(query) => first_without(alloc, spec, query, completions),
        _ => unreachable!(),
    }
}

/// The place of the first of these completions over which the empty tuple is no answer.
fn first_without(
    alloc: Global,
    spec: &Specification,
    query: &Query,
    completions: &[Completion],
) -> Result<Option<usize>, NoMemory>
    requires query { IsQuery query.now }
    requires completions { All (IsCompletion spec.now.relations) completions.now }
    ensures lacks { IfOk result (λ found. IfSome found (LacksAt spec.now.relations query.now completions.now)) }
    ensures all { IfOk result (λ found. IfNone found (All (IsAnswerIn spec.now.relations query.now []) completions.now)) }
{
    for place in 0..completions.len() {
        if !has_answer(alloc, spec, query, &completions[place])? {
            return Ok(Some(place));
        }
    }
    Ok(None)
}

/// Is the empty tuple an answer of a query over a completion?
pub fn has_answer(
    alloc: Global,
    spec: &Specification,
    query: &Query,
    completion: &Completion,
) -> Result<bool, NoMemory>
    requires query { IsQuery query.now }
    requires completion { IsCompletion spec.now.relations completion.now }
    ensures has { IfOk result (λ has. has ≡ true → IsAnswerIn spec.now.relations query.now [] completion.now) }
    ensures lacks { IfOk result (λ has. has ≡ false → IsAnswerIn spec.now.relations query.now [] completion.now → ⊥) }
{
    one_current_instance();
    let instance = current(alloc, spec, completion)?;
    let indexed = IndexedInstance::new(alloc, query, &instance)?;
    has_empty(alloc, &indexed)
}

/// Is the empty tuple an answer over an instance?
fn has_empty(alloc: Global, indexed: &IndexedInstance<'_>) -> Result<bool, NoMemory>
    ensures has { IfOk result (λ has. has ≡ true → IsAnswer indexed.now.query indexed.now.instance []) }
    ensures lacks { IfOk result (λ has. has ≡ false → IsAnswer indexed.now.query indexed.now.instance [] → ⊥) }
{
    laws_of_answers();
    let tuple = Tuple::new(alloc);
    match indexed.match_of(alloc, &tuple)? {
        Some(_) => Ok(true),
        None => Ok(false),
    }
}
