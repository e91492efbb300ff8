ghost use Rattle.std.specs.Prelude.{◌≢◌, [], All, IfErr, OnOk};
ghost use Rattle.common_answers.specs.Common.{AreCommon};
ghost use Rattle.query_model.specs.Answers.{AreAscending};
ghost use Rattle.query_model.specs.Fitting.{IsQuery};
ghost use Rattle.report_model.specs.declared.verdict.Verdict.TheVariants as verdict;
ghost use Rattle.report_verify.specs.Judged.{AreCommonOf, IsBacked, IsUncommonIn};
ghost use Rattle.report_verify.specs.Supported.{IsOneOf};
ghost use Rattle.spec_model.specs.Completion.{IsCompletion};
ghost use Rattle.spec_model.specs.Questions.{IsQuestionOn};
ghost use Rattle.spec_model.specs.declared.question.Question.TheVariants as asked;

use crate::{Missing, Unshown, VerifyFault};
use common_answers::are_common;
use currency_base::TupleList;
use report_model::{CompletionList, Part, Report, Verdict};
use spec_model::{Query, Question, Specification};
use std::alloc::Global;

// Are the printed answers those that the listed completions have in common, where answers are asked for?
pub(crate) fn check_common(
    alloc: Global,
    spec: &Specification,
    question: &Question,
    report: &Report,
) -> Result<(), VerifyFault>
    requires question { IsQuestionOn spec.now.relations question.now }
    requires one_of { IsOneOf spec.now question.now report.now.verdict }
    requires completions { All (IsCompletion spec.now.relations) report.now.completions }
    requires backed { IsBacked spec.now report.now.verdict report.now.completions report.now.log }
    ensures common { OnOk result (AreCommonOf spec.now question.now report.now.verdict report.now.completions) }
    ensures uncommon { IfErr result (IsUncommonIn spec.now question.now report.now.verdict report.now.completions) }
{
    match &report.verdict {
        Verdict::Answers(tuples) => match question {
            Question::Answers(query) => {
                check_printed(alloc, spec, query, &report.completions, tuples)
            }
            _ => Ok(()),
        },
        _ => Ok(()),
    }
}

// Are these tuples the answers that the completions have in common?
fn check_printed(
    alloc: Global,
    spec: &Specification,
    query: &Query,
    completions: &CompletionList,
    tuples: &TupleList,
) -> Result<(), VerifyFault>
    requires query { IsQuery query.now }
    requires completions { All (IsCompletion spec.now.relations) completions.now }
    requires ascending { AreAscending tuples.now }
    requires some { completions.now ≢ [] }
    ensures common { OnOk result (AreCommon spec.now.relations query.now tuples.now completions.now) }
    ensures uncommon { IfErr result (IsUncommonIn spec.now (asked.Answers query.now) (verdict.Answers tuples.now)
        completions.now) }
{
    match are_common(alloc, spec, query, completions.as_slice(), tuples) {
        Ok(true) => Ok(()),
        Ok(false) => Err(VerifyFault::Refused {
            part: Part::Verdict,
            why: Unshown::NotShown(Missing::NotCommon),
        }),
        Err(_) => Err(VerifyFault::NoMemory),
    }
}
