ghost use Rattle.std.specs.Prelude.{◌≡◌, ℕ, List, Result};
ghost use Rattle.command_stages.specs.declared.trouble.Trouble.{Trouble};
ghost use Rattle.currency_report.specs.declared.report.ReadReport.{ReadReport};
ghost use Rattle.report_model.specs.declared.verdict.VerdictKind.{VerdictKind};
ghost use Rattle.report_stages.specs.Judged.{IsReportRead, IsJudged};
ghost use Rattle.spec_model.specs.Spec.{Spec};
ghost use Rattle.spec_model.specs.declared.question.Question.{Question};
ghost use Rattle.spec_model.specs.declared.relation.Relation.{Relation};

use report_syntax::one_report;
use report_verify::{first_unshown_is_not_shown, first_unshown_is_one};

/// A law: a told document is read as one report on the relations of a specification, and a report has one judgement.
pub fn one_judgement()
    ensures reports { (told : List (List ℕ × List ℕ)) (relations : List Relation) (name : List ℕ)
        (a b : Result ReadReport Trouble)
        → IsReportRead told relations name a → IsReportRead told relations name b → a ≡ b }
    ensures judged { (s : Spec) (question : Question) (name : List ℕ) (r : ReadReport) (a b : Result VerdictKind Trouble)
        → IsJudged s question name r a → IsJudged s question name r b → a ≡ b }
{
    one_report();
    first_unshown_is_one();
    first_unshown_is_not_shown();
}
