ghost use Rattle.std.specs.Prelude.{◌≡◌, ◌≢◌, IfErr, IfOk, Err};
ghost use Rattle.bound_spec.specs.Growth.{IsWithinLimits};
ghost use Rattle.command_stages.specs.Endings.{ending_of};
ghost use Rattle.command_stages.specs.Named.{IsDeterminedTrouble, IsReadFault};
ghost use Rattle.command_stages.specs.declared.done.Done.{Done};
ghost use Rattle.currency_ask.specs.Answered.{HasTooMany};
ghost use Rattle.report_write.specs.Writable.{IsWritableReport};
ghost use Rattle.spec_model.specs.Completion.{Rankings};
ghost use Rattle.spec_model.specs.Questions.{IsQuestionOn};
ghost use Rattle.answer_texts.specs.Answers.{IsAnswer, answer_done, answer_text, ask_trouble};

use crate::names::has_text_names;
use bound_spec::is_specification;
use command_stages::{Done, Ending, Trouble};
use currency_ask::{AskFault, answer};
use currency_base::{ByteList, NoMemory};
use report_model::Report;
use report_reread::written_is_read;
use report_write::{write_brief, write_report};
use solver_guides::Guides;
use spec_model::{Question, Specification};
use std::alloc::Global;

// The text of a report: brief where that is asked and it is decided.
fn report_text(
    alloc: Global,
    spec: &Specification,
    brief: bool,
    report: &Report,
) -> Result<ByteList, NoMemory>
    requires { IsWritableReport spec.now.relations report.now }
    ensures { IfOk result (λ text. text ≡ answer_text spec.now.relations brief report.now) }
{
    if brief && report.verdict.kind().is_decided() {
        write_brief(alloc, spec, report)
    } else {
        write_report(alloc, spec, report)
    }
}

/// How a question ends that is decided, or not.
pub fn ending_of(decided: bool) -> Ending
    ensures { result ≡ ending_of decided }
{
    if decided {
        Ending::Decided
    } else {
        Ending::Undecided
    }
}

/// What a report is told as.
pub fn printed_report(
    alloc: Global,
    spec: &Specification,
    brief: bool,
    report: &Report,
) -> Result<Done, Trouble>
    requires { IsWritableReport spec.now.relations report.now }
    ensures printed { IfOk result (λ done. done ≡ answer_done spec.now.relations brief report.now) }
    ensures memory { IfErr result (λ e. e ≡ Trouble.NoMemory) }
{
    match report_text(alloc, spec, brief, report) {
        Ok(text) => Ok(Done {
            text,
            ending: ending_of(report.verdict.kind().is_decided()),
        }),
        Err(_) => Err(Trouble::NoMemory),
    }
}

// The trouble that a question is not answered.
fn of_ask(fault: AskFault) -> Trouble
    ensures due { result ≡ ask_trouble fault }
    ensures inside { IsReadFault {A = Done} (Err result) → ⊥ }
    ensures not_words { result ≢ Trouble.Words }
{
    match fault {
        AskFault::TooMany(_) => Trouble::Limit(3),
        AskFault::NoMemory => Trouble::NoMemory,
    }
}

/// A report that answers a question.
pub fn report_on(
    alloc: Global,
    spec: &Specification,
    question: &Question,
    budget: u64,
    guides: &mut Guides,
) -> Result<Report, Trouble>
    requires within { IsWithinLimits spec.now }
    requires question { IsQuestionOn spec.now.relations question.now }
    ensures answer { IfOk result (IsAnswer spec.now question.now budget) }
    ensures writable { IfOk result (IsWritableReport spec.now.relations) }
    ensures too_many { IfErr result (λ e. IsDeterminedTrouble e → (c : Rankings) × HasTooMany spec.now question.now c ×
        (e ≡ Trouble.Limit 3)) }
    ensures inside { IsReadFault result → ⊥ }
    ensures not_words { IfErr result (λ e. e ≢ Trouble.Words) }
{
    is_specification(spec);
    has_text_names(spec);
    written_is_read();
    match answer(alloc, spec, question, budget, guides) {
        Ok(report) => Ok(report),
        Err(fault) => Err(of_ask(fault)),
    }
}
