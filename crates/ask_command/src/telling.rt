ghost use Rattle.std.specs.Prelude.{◌≡◌, IfErr, IfOk};
ghost use Rattle.ask_command.specs.Asked.{ask_said};
ghost use Rattle.ask_command.specs.Forms.{ask_ending, asked_done, form_text, is_no};
ghost use Rattle.report_write.specs.Writable.{IsWritableReport};
ghost use Rattle.answer_texts.specs.Answers.{answer_text};

use answer_texts::{ending_of, printed_report};
use command_stages::{Done, Ending, Trouble};
use currency_base::ByteList;
use program_words::{AnswerForm, Ask};
use report_model::{Report, VerdictKind};
use report_write::write_verdict;
use spec_model::Specification;
use std::alloc::Global;

// Is the answer no?
fn is_no(kind: VerdictKind) -> bool
    ensures { result ≡ is_no kind }
{
    match kind {
        VerdictKind::Inconsistent => true,
        VerdictKind::NotCertain => true,
        VerdictKind::NotSame => true,
        VerdictKind::Consistent => false,
        VerdictKind::Certain => false,
        VerdictKind::Same => false,
        VerdictKind::Answers => false,
        VerdictKind::Undecided => false,
    }
}

// How a question ends whose verdict is of this kind.
fn ask_ending(exit: bool, kind: VerdictKind) -> Ending
    ensures { result ≡ ask_ending exit kind }
{
    if exit && is_no(kind) {
        Ending::Denied
    } else {
        ending_of(kind.is_decided())
    }
}

// The text of a report, whole, or brief where that is asked and it is decided.
fn report_text(
    alloc: Global,
    spec: &Specification,
    brief: bool,
    report: &Report,
) -> Result<ByteList, Trouble>
    requires { IsWritableReport spec.now.relations report.now }
    ensures printed { IfOk result (λ text. text ≡ answer_text spec.now.relations brief report.now) }
    ensures memory { IfErr result (λ e. e ≡ Trouble.NoMemory) }
{
    let Done { text, .. } = printed_report(alloc, spec, brief, report)?;
    Ok(text)
}

// The text of a report in a form.
fn form_text(
    alloc: Global,
    spec: &Specification,
    form: AnswerForm,
    report: &Report,
) -> Result<ByteList, Trouble>
    requires { IsWritableReport spec.now.relations report.now }
    ensures printed { IfOk result (λ text. text ≡ form_text spec.now.relations form report.now) }
    ensures memory { IfErr result (λ e. e ≡ Trouble.NoMemory) }
{
    match form {
        AnswerForm::Whole => report_text(alloc, spec, false, report),
        AnswerForm::Brief => report_text(alloc, spec, true, report),
        AnswerForm::Verdict => match write_verdict(alloc, spec, report) {
            Ok(text) => Ok(text),
            Err(_) => Err(Trouble::NoMemory),
        },
    }
}

/// What a report is told as that answers what is asked.
pub fn printed_as_asked(
    alloc: Global,
    spec: &Specification,
    asked: &Ask<'_>,
    report: &Report,
) -> Result<Done, Trouble>
    requires { IsWritableReport spec.now.relations report.now }
    ensures printed { IfOk result (λ done. done ≡ asked_done spec.now.relations (ask_said asked.now) report.now) }
    ensures memory { IfErr result (λ e. e ≡ Trouble.NoMemory) }
{
    match form_text(alloc, spec, asked.form, report) {
        Ok(text) => Ok(Done {
            text,
            ending: ask_ending(asked.exit, report.verdict.kind()),
        }),
        Err(trouble) => Err(trouble),
    }
}
