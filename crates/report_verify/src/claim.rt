ghost use Rattle.std.specs.Prelude.{◌≡◌, ◌≤◌, All, IfSome, IfNone, cond, true};
ghost use Rattle.std.specs.List.{list_any};
ghost use Rattle.log_checker.specs.Shown.{is_empty};
ghost use Rattle.refutation_log.specs.Counted.{counted_steps};
ghost use Rattle.refutation_log.specs.Steps.{clauses_of, is_counted, step_of};
ghost use Rattle.report_verify.specs.Judged.{IsBacked, IsLacking};
ghost use Rattle.report_verify.specs.Shown.{asks_completion};
ghost use Rattle.report_verify.specs.Supported.{IsOneOf};
ghost use Rattle.spec_model.specs.Completion.{IsCompletion};
ghost use Rattle.spec_model.specs.Questions.{IsQuestionOn};

use crate::Missing;
use crate::listed::{one_breaks, two_differ};
use refutation_log::{StepRef, Steps};
use report_model::{Report, Verdict};
use spec_model::{Question, Specification};

// What the verdict of a report asks for and the report lacks, other than units, where it is told whether the
// log has the empty clause.
pub(crate) fn lacking(
    spec: &Specification,
    question: &Question,
    report: &Report,
    has_empty: bool,
) -> Option<Missing>
    requires question { IsQuestionOn spec.now.relations question.now }
    requires one_of { IsOneOf spec.now question.now report.now.verdict }
    requires completions { All (IsCompletion spec.now.relations) report.now.completions }
    requires empty { has_empty ≡ list_any is_empty (clauses_of report.now.log.steps) }
    ensures nothing { IfNone result (IsBacked spec.now report.now.verdict report.now.completions report.now.log) }
    ensures something { IfSome result (IsLacking spec.now report.now) }
{
    match &report.verdict {
        Verdict::Inconsistent => {
            if has_empty {
                None
            } else {
                Some(Missing::NoEmptyClause)
            }
        }
        Verdict::Undecided(counted) => {
            if count_counted(&report.log.steps) == *counted {
                None
            } else {
                Some(Missing::WrongCount)
            }
        }
        _ => lacking_listed(spec, question, report),
    }
}

// The same, of a verdict that asks for a completion.
fn lacking_listed(spec: &Specification, question: &Question, report: &Report) -> Option<Missing>
    requires question { IsQuestionOn spec.now.relations question.now }
    requires one_of { IsOneOf spec.now question.now report.now.verdict }
    requires completions { All (IsCompletion spec.now.relations) report.now.completions }
    requires asks { asks_completion report.now.verdict ≡ true }
    ensures nothing { IfNone result (IsBacked spec.now report.now.verdict report.now.completions report.now.log) }
    ensures something { IfSome result (IsLacking spec.now report.now) }
{
    if report.completions.len() == 0 {
        return Some(Missing::NoCompletion);
    }
    match &report.verdict {
        Verdict::NotCertain(pair) => {
            if one_breaks(spec, report.completions.as_slice(), *pair) {
                None
            } else {
                Some(Missing::NotBroken)
            }
        }
        Verdict::NotSame { rel, attr, ent } => {
            if two_differ(spec, report.completions.as_slice(), *rel, *attr, *ent) {
                None
            } else {
                Some(Missing::NotDifferent)
            }
        }
        _ => None,
    }
}

// How many steps are counted.
fn count_counted(steps: &Steps) -> u64
    ensures { result ≡ counted_steps steps.now }
{
    let mut count = 0;
    for place in 0..steps.len() {
        count += counts(steps.get(place));
    }
    count
}

// A step counts one if it is counted.
fn counts(step: StepRef<'_>) -> u64
    ensures value { result ≡ cond (is_counted (step_of step.entry)) 1 0 }
    ensures few { result ≤ 1 }
{
    match step {
        StepRef::Axiom { .. } => 0,
        StepRef::OnDemand { .. } => 1,
        StepRef::Learn { counted, .. } => u64::from(counted),
    }
}
