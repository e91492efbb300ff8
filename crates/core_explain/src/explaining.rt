ghost use Rattle.std.specs.Prelude.{◌≡◌, All, IfOk, option_map, slice_get};
ghost use Rattle.search_logs.specs.SearchLogs.{IsWithin};
ghost use Rattle.spec_model.specs.Questions.{IsQuestionOn};
ghost use Rattle.spec_model.specs.Consistent.{IsConsistent, IsSatisfiable};
ghost use Rattle.unit_questions.specs.Facts.{IsFactQuestion};
ghost use Rattle.core_explain.specs.Explained.{IsExplained};
ghost use Rattle.core_explain.specs.Steps.{IsAnswer, IsDecidedAnswer, IsForUnit};

use currency_base::NoMemory;
use minimal_items::{AskFault, NeededList, Spent, answer};
use near_items::{Sought, seek};
use refutation_log::Log;
use report_model::{Report, VerdictKind};
use solver_guides::Guides;
use spec_model::{Completion, Question, Specification};
use std::alloc::Global;
use unit_questions::{claims_are_asked, unit_question};

/// What explains a unit of a verdict.
#[derive(Drop)]
pub enum Explained {
    /// There is no consistent completion, and this explains it.
    Inconsistent(NeededList),
    /// This explains the unit.
    Unit(NeededList),
    /// The verdict of this report has no such unit.
    NoUnit(Report),
    /// The query has too many answers over this completion.
    TooMany(Completion),
    /// The budget is spent on the question itself.
    Undecided(Report),
    /// The budget is spent on a part.
    Open(Spent),
}

/// Explains a unit of the verdict on a question, counted from 0: an asked pair, a current value, an answer. Where there is no
/// consistent completion it explains that, whatever the unit. Each question that is put on the way has the budget of clauses that
/// may be learned.
pub fn explain(
    alloc: Global,
    spec: &Specification,
    question: &Question,
    unit: u32,
    budget: u64,
    guides: &mut Guides,
) -> Result<Explained, NoMemory>
    requires within { IsWithin spec.now }
    requires question { IsQuestionOn spec.now.relations question.now }
    ensures { IfOk result (IsExplained spec.now question.now unit budget) }
{
    match answer(alloc, spec, question, budget, guides) {
        Ok(report) => of_report(alloc, spec, question, unit, report, budget, guides),
        Err(AskFault::TooMany(completion)) => Ok(Explained::TooMany(completion)),
        Err(AskFault::NoMemory) => Err(NoMemory),
    }
}

/// What explains the unit, where this report answers the question.
fn of_report(
    alloc: Global,
    spec: &Specification,
    question: &Question,
    unit: u32,
    report: Report,
    budget: u64,
    guides: &mut Guides,
) -> Result<Explained, NoMemory>
    requires within { IsWithin spec.now }
    requires question { IsQuestionOn spec.now.relations question.now }
    requires answer { IsAnswer spec.now question.now budget report }
    ensures { IfOk result (IsExplained spec.now question.now unit budget) }
{
    match report.verdict.kind() {
        VerdictKind::Undecided => Ok(Explained::Undecided(report)),
        VerdictKind::Inconsistent => of_contradiction(
            alloc,
            spec,
            question,
            unit,
            &report.log,
            budget,
            guides,
        ),
        _ => of_decided(alloc, spec, question, unit, report, budget, guides),
    }
}

/// What explains that there is no consistent completion.
fn of_contradiction(
    alloc: Global,
    spec: &Specification,
    question: &Question,
    unit: u32,
    log: &Log,
    budget: u64,
    guides: &mut Guides,
) -> Result<Explained, NoMemory>
    requires within { IsWithin spec.now }
    requires inconsistent { IsSatisfiable spec.now → ⊥ }
    ensures { IfOk result (IsExplained spec.now question.now unit budget) }
{
    match seek(
        alloc,
        spec,
        &Question::Consistent,
        log,
        None,
        budget,
        guides,
    ) {
        Ok(Sought::Needs(needed)) => Ok(Explained::Inconsistent(needed)),
        Ok(Sought::Open(spent)) => Ok(Explained::Open(spent)),
        Err(NoMemory) => Err(NoMemory),
    }
}

/// What explains the unit of the report's verdict, if it has such a unit.
fn of_decided(
    alloc: Global,
    spec: &Specification,
    question: &Question,
    unit: u32,
    report: Report,
    budget: u64,
    guides: &mut Guides,
) -> Result<Explained, NoMemory>
    requires within { IsWithin spec.now }
    requires question { IsQuestionOn spec.now.relations question.now }
    requires answer { IsDecidedAnswer spec.now question.now report }
    ensures { IfOk result (IsExplained spec.now question.now unit budget) }
{
    match unit_question(alloc, spec, question, &report.verdict, unit) {
        Ok(Some(asks)) => of_unit(alloc, spec, question, unit, &asks, &report, budget, guides),
        Ok(None) => Ok(Explained::NoUnit(report)),
        Err(NoMemory) => Err(NoMemory),
    }
}

/// What explains the unit for which this is the question.
fn of_unit(
    alloc: Global,
    spec: &Specification,
    question: &Question,
    unit: u32,
    asks: &Question,
    report: &Report,
    budget: u64,
    guides: &mut Guides,
) -> Result<Explained, NoMemory>
    requires within { IsWithin spec.now }
    requires question { IsQuestionOn spec.now.relations question.now }
    requires fact { IsFactQuestion spec.now.relations asks.now }
    requires asks { IsForUnit spec.now question.now unit asks.now }
    requires consistent { All (IsConsistent spec.now) report.now.completions }
    ensures { IfOk result (IsExplained spec.now question.now unit budget) }
{
    claims_are_asked();
    let base = first_of(report);
    match seek(alloc, spec, asks, &report.log, base, budget, guides) {
        Ok(Sought::Needs(needed)) => Ok(Explained::Unit(needed)),
        Ok(Sought::Open(spent)) => Ok(Explained::Open(spent)),
        Err(NoMemory) => Err(NoMemory),
    }
}

/// The first completion that a report lists, if it lists one.
fn first_of(report: &Report) -> Option<&Completion>
    ensures { option_map (λ c. c.now) result ≡ slice_get report.now.completions 0 }
{
    if report.completions.len() > 0 {
        Some(report.completions.get(0))
    } else {
        None
    }
}
