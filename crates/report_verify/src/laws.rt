ghost use Rattle.std.specs.Prelude.{◌≡◌, true};
ghost use Rattle.report_model.specs.Verdicts.{is_decided, kind_of};
ghost use Rattle.report_model.specs.declared.report.Part.{Part};
ghost use Rattle.report_model.specs.declared.report.Report.{Report};
ghost use Rattle.spec_model.specs.Questions.{IsQuestionOn};
ghost use Rattle.report_verify.specs.Right.{IsRight};
ghost use Rattle.report_verify.specs.Shown.{ShowsVerdict, IsFirstUnshown};
ghost use Rattle.report_verify.specs.declared.fault.Unshown.{Unshown};
ghost use Rattle.spec_model.specs.Facts.{IsSpecification};
ghost use Rattle.spec_model.specs.Spec.{Spec};
ghost use Rattle.spec_model.specs.declared.question.Question.{Question};

use answer_laws::{answers_in_are_decided, instances_exist};
use checked_logs::accepted_logs_are_true;
use completion_check::{first_flaw_is_one, flaw_rules_out};
use log_checker::one_verdict_on_a_log;

/// A report that fails a check does not show its verdict.
pub fn first_unshown_is_not_shown()
    ensures { (s : Spec) (question : Question) (report : Report) (part : Part) (why : Unshown)
        → IsFirstUnshown s question report part why → ShowsVerdict s question report → ⊥ }
{
    flaw_rules_out();
    first_flaw_is_one();
    one_verdict_on_a_log();
}

/// A verdict that is shown is right, if one is claimed.
pub fn shown_is_right()
    ensures { (s : Spec) (question : Question) (report : Report) → IsSpecification s → IsQuestionOn s.relations question
        → ShowsVerdict s question report → is_decided (kind_of report.verdict) ≡ true → IsRight s question report.verdict }
{
    accepted_logs_are_true();
    instances_exist();
    answers_in_are_decided();
}

/// A report has one first check that fails.
pub fn first_unshown_is_one()
    ensures { (s : Spec) (question : Question) (report : Report) (part other_part : Part) (why other : Unshown)
        → IsFirstUnshown s question report part why → IsFirstUnshown s question report other_part other
        → (part ≡ other_part) × (why ≡ other) }
{
    flaw_rules_out();
    first_flaw_is_one();
    one_verdict_on_a_log();
}
