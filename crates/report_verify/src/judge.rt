ghost use Rattle.std.specs.Prelude.{◌≡◌, ◌<◌, ◌^◌, true, All, IfErr, OnOk, length};
ghost use Rattle.refutation_log.specs.Numbered.{IsNumbered};
ghost use Rattle.report_model.specs.Verdicts.{is_decided, kind_of};
ghost use Rattle.spec_model.specs.Questions.{IsQuestionOn};
ghost use Rattle.report_verify.specs.Right.{IsRight};
ghost use Rattle.report_verify.specs.Shown.{ShowsVerdict, Refuses};
ghost use Rattle.report_verify.specs.Supported.{IsOneOf};
ghost use Rattle.report_model.specs.declared.report.Part.TheVariants as part;
ghost use Rattle.report_verify.specs.declared.fault.Unshown.TheVariants as why;
ghost use Rattle.report_verify.specs.declared.fault.VerifyFault.TheVariants as fault;
ghost use Rattle.spec_model.specs.Completion.{HasShape};
ghost use Rattle.spec_model.specs.Facts.{IsSpecification};

use crate::claim::lacking;
use crate::common::check_common;
use crate::completions::check_completions;
use crate::laws::{first_unshown_is_not_shown, shown_is_right};
use crate::log::{check_log, has_empty};
use crate::needs::check_units;
use crate::shape::is_one_of;
use crate::{Missing, Unshown, VerifyFault};
use report_model::{Part, Report};
use spec_model::{Question, Specification};
use std::alloc::Global;

/// Does the report show its verdict on the specification and the question? Otherwise the first check
/// that fails, with the part of the report that it is about: that the verdict is one of the question's, that
/// each listed completion is consistent, that the log is accepted, and then what the verdict asks for. Takes
/// time in proportion to the specification for each listed completion, to the log, and to the question and the
/// verdict, each of whose claims is looked up among the units of the log; and where answers are asked for, the time that
/// it takes to find them over the first listed completion, and to look these up over the others.
pub fn verify(
    alloc: Global,
    spec: &Specification,
    question: &Question,
    report: &Report,
) -> Result<(), VerifyFault>
    requires question { IsQuestionOn spec.now.relations question.now }
    requires shape { All (HasShape spec.now.relations) report.now.completions }
    requires few { length report.now.completions < 2 ^ 32 }
    requires numbered { IsNumbered report.now.log.statements report.now.log.steps }
    ensures shown { OnOk result (ShowsVerdict spec.now question.now report.now) }
    ensures right { OnOk result (is_decided (kind_of report.now.verdict) ≡ true → IsRight spec.now question.now
        report.now.verdict) }
    ensures refused { IfErr result (Refuses spec.now question.now report.now) }
    ensures exact { ShowsVerdict spec.now question.now report.now → IfErr result (λ e. e ≡ fault.NoMemory) }
{
    first_unshown_is_not_shown();
    shown_is_right();
    is_specification(spec);
    judged(alloc, spec, question, report)
}

// The same, and nothing of what follows from it.
fn judged(
    alloc: Global,
    spec: &Specification,
    question: &Question,
    report: &Report,
) -> Result<(), VerifyFault>
    requires question { IsQuestionOn spec.now.relations question.now }
    requires shape { All (HasShape spec.now.relations) report.now.completions }
    requires few { length report.now.completions < 2 ^ 32 }
    requires numbered { IsNumbered report.now.log.statements report.now.log.steps }
    ensures shown { OnOk result (ShowsVerdict spec.now question.now report.now) }
    ensures refused { IfErr result (Refuses spec.now question.now report.now) }
{
    match is_one_of(alloc, spec, question, &report.verdict) {
        Ok(true) => judged_checks(alloc, spec, question, report),
        Ok(false) => Err(not_shown(Missing::Shape)),
        Err(_) => Err(VerifyFault::NoMemory),
    }
}

// The same, where the verdict is one of the question's.
fn judged_checks(
    alloc: Global,
    spec: &Specification,
    question: &Question,
    report: &Report,
) -> Result<(), VerifyFault>
    requires question { IsQuestionOn spec.now.relations question.now }
    requires one_of { IsOneOf spec.now question.now report.now.verdict }
    requires shape { All (HasShape spec.now.relations) report.now.completions }
    requires few { length report.now.completions < 2 ^ 32 }
    requires numbered { IsNumbered report.now.log.statements report.now.log.steps }
    ensures shown { OnOk result (ShowsVerdict spec.now question.now report.now) }
    ensures refused { IfErr result (Refuses spec.now question.now report.now) }
{
    if let Err(fault) = check_completions(alloc, spec, &report.completions) {
        return Err(fault);
    }
    let checked = match check_log(alloc, spec, question, &report.log) {
        Ok(checked) => checked,
        Err(fault) => return Err(fault),
    };
    if let Some(missing) = lacking(spec, question, report, has_empty(&checked)) {
        return Err(not_shown(missing));
    }
    if let Err(fault) = check_units(alloc, spec, question, report, &checked) {
        return Err(fault);
    }
    check_common(alloc, spec, question, report)
}

// A law: what every specification keeps, as its parts say it.
fn is_specification(spec: &Specification)
    ensures { IsSpecification spec.now }
{
    let _ = spec.relations();
    let _ = spec.rules();
    let _ = spec.copies();
}

// A refusal for what the verdict lacks.
fn not_shown(missing: Missing) -> VerifyFault
    ensures { result ≡ fault.Refused part.Verdict (why.NotShown missing) }
{
    VerifyFault::Refused {
        part: Part::Verdict,
        why: Unshown::NotShown(missing),
    }
}
