ghost use Rattle.std.specs.Prelude.{◌≡◌, ◌≢◌, ℕ, true, List, IfErr, ◌≤◌, ◌<◌, ◌^◌, All, IfOk, IfSome, OnOk, length};
ghost use Rattle.currency_edge.specs.Fault.{Rose};
ghost use Rattle.currency_report.specs.Lines.{AreLinesOf};
ghost use Rattle.refutation_log.specs.Numbered.{IsNumbered};
ghost use Rattle.report_model.specs.Verdicts.{is_decided, kind_of};
ghost use Rattle.report_verify.specs.Right.{IsRight};
ghost use Rattle.report_verify.specs.Shown.{ShowsVerdict};
ghost use Rattle.spec_model.specs.Completion.{HasShape};
ghost use Rattle.spec_model.specs.Questions.{IsQuestionOn};
ghost use Rattle.report_stages.specs.Shown.{IsReportShown};
ghost use Rattle.command_stages.specs.Stages.{Then};
ghost use Rattle.report_stages.specs.Judged.{IsReportSaid, IsReportRead, IsJudged};
ghost use Rattle.command_stages.specs.Named.{IsDetermined, IsReadFault, IsReadFaultOf};

use crate::troubles::{of_report, of_unshown};
use command_stages::{Trouble, read_bytes};
use currency_edge::Shelf;
use currency_report::{ReadReport, read_report};
use report_model::VerdictKind;
use report_verify::{VerifyFault, verify};
use spec_model::{Question, Specification};
use std::alloc::Global;

// The report that a text says of a specification. The conditions of judging it come with it.
fn report_said(
    alloc: Global,
    name: &str,
    bytes: &[u8],
    spec: &Specification,
) -> Result<ReadReport, Trouble>
    ensures said { IsDetermined result → IsReportSaid spec.now.relations name.now bytes.now result }
    ensures inside { IsReadFault result → ⊥ }
    ensures shape { IfOk result (λ r. All (HasShape spec.now.relations) r.report.completions) }
    ensures few { IfOk result (λ r. length r.report.completions < 2 ^ 32) }
    ensures numbered { IfOk result (λ r. IsNumbered r.report.log.statements r.report.log.steps) }
    ensures lines { IfOk result (λ r. AreLinesOf r.report r.lines) }
    ensures not_words { IfErr result (λ e. e ≢ Trouble.Words) }
{
    match read_report(alloc, bytes, spec) {
        Ok(read) => Ok(read),
        Err(fault) => Err(of_report(alloc, name, fault)),
    }
}

// The third stage: the report. It has no bound but memory.
fn read_the_report<S: Shelf>(
    alloc: Global,
    shelf: &mut S,
    name: &str,
    spec: &Specification,
) -> Result<ReadReport, Trouble>
    ensures kept { S.texts shelf.new ≡ S.texts shelf.old }
    ensures later { S.faults shelf.old ≤ S.faults shelf.new }
    ensures stage { IsDetermined result → IfSome (S.texts shelf.old)
        (λ told. IsReportRead told spec.now.relations name.now result) }
    ensures read_fault { IsReadFault result → Rose (S.faults shelf.old) (S.faults shelf.new) }
    ensures shape { IfOk result (λ r. All (HasShape spec.now.relations) r.report.completions) }
    ensures few { IfOk result (λ r. length r.report.completions < 2 ^ 32) }
    ensures numbered { IfOk result (λ r. IsNumbered r.report.log.statements r.report.log.steps) }
    ensures lines { IfOk result (λ r. AreLinesOf r.report r.lines) }
    ensures named { (n : List ℕ) → IsReadFaultOf result n → n ≡ name.now }
    ensures not_words { IfErr result (λ e. e ≢ Trouble.Words) }
{
    let bytes = match read_bytes(alloc, shelf, name, usize::MAX) {
        Ok(bytes) => bytes,
        // No vector is longer than `usize::MAX`, so no text is.
        Err(Trouble::Limit(_)) => return Err(Trouble::NoMemory),
        Err(trouble) => return Err(trouble),
    };
    report_said(alloc, name, bytes.as_slice(), spec)
}

// The job: does the report show its verdict?
fn judge(
    alloc: Global,
    name: &str,
    spec: &Specification,
    question: &Question,
    read: &ReadReport,
) -> Result<VerdictKind, Trouble>
    requires question { IsQuestionOn spec.now.relations question.now }
    requires shape { All (HasShape spec.now.relations) read.now.report.completions }
    requires few { length read.now.report.completions < 2 ^ 32 }
    requires numbered { IsNumbered read.now.report.log.statements read.now.report.log.steps }
    requires lines { AreLinesOf read.now.report read.now.lines }
    ensures kind { IfOk result (λ kind. kind ≡ kind_of read.now.report.verdict) }
    ensures shown { OnOk result (ShowsVerdict spec.now question.now read.now.report) }
    ensures right { IfOk result (λ kind. is_decided kind ≡ true → IsRight spec.now question.now read.now.report.verdict) }
    ensures job { IsDetermined result → IsJudged spec.now question.now name.now read.now result }
    ensures inside { IsReadFault result → ⊥ }
    ensures not_words { IfErr result (λ e. e ≢ Trouble.Words) }
{
    match verify(alloc, spec, question, &read.report) {
        Ok(()) => Ok(read.report.verdict.kind()),
        Err(VerifyFault::Refused { part, why }) => {
            Err(of_unshown(alloc, name, why, read.lines.of(part)))
        }
        Err(VerifyFault::NoMemory) => Err(Trouble::NoMemory),
    }
}

/// The report, and whether it shows its verdict on a specification and a question that are read.
pub fn judge_document<S: Shelf>(
    alloc: Global,
    shelf: &mut S,
    name: &str,
    spec: &Specification,
    question: &Question,
) -> Result<VerdictKind, Trouble>
    requires question { IsQuestionOn spec.now.relations question.now }
    ensures later { S.faults shelf.old ≤ S.faults shelf.new }
    ensures due { IsDetermined result → IfSome (S.texts shelf.old) (λ told.
        Then (IsReportRead told spec.now.relations name.now) (IsJudged spec.now question.now name.now) result) }
    ensures right { IfOk result (λ kind. IfSome (S.texts shelf.old) (λ told. IsReportShown told spec.now question.now
        name.now kind)) }
    ensures read_fault { IsReadFault result → Rose (S.faults shelf.old) (S.faults shelf.new) }
    ensures named { (n : List ℕ) → IsReadFaultOf result n → n ≡ name.now }
    ensures not_words { IfErr result (λ e. e ≢ Trouble.Words) }
{
    match read_the_report(alloc, shelf, name, spec) {
        Ok(read) => judge(alloc, name, spec, question, &read),
        Err(trouble) => Err(trouble),
    }
}
