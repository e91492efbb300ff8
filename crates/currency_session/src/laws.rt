ghost use Rattle.std.specs.Prelude.{◌≡◌, List};
ghost use Rattle.log_form.specs.Form.{first_fault};
ghost use Rattle.refutation_log.specs.declared.log.Log.{Log};
ghost use Rattle.report_model.specs.Writable.{IsWritableCompletion, IsWritableVerdict};
ghost use Rattle.report_model.specs.declared.report.Report.{Report};
ghost use Rattle.report_model.specs.declared.verdict.Verdict.{Verdict};
ghost use Rattle.report_write.specs.Writable.{IsWritableReport};
ghost use Rattle.spec_edits.specs.Kept.{AreSameButGiven};
ghost use Rattle.spec_model.specs.Completion.{Rankings};
ghost use Rattle.spec_model.specs.Facts.{IsSpecification};
ghost use Rattle.spec_model.specs.declared.relation.Relation.{Relation};

use spec_model::Specification;

/// A law: a report that can be written of some relations can be written of the same ones with other given pairs; and so
/// can its verdict and its completions, and its log is well formed of both or of neither.
pub fn reports_are_kept()
    ensures verdicts { (old new : List Relation) (v : Verdict) → AreSameButGiven old new → IsWritableVerdict old v
        → IsWritableVerdict new v }
    ensures completions { (old new : List Relation) (c : Rankings) → AreSameButGiven old new → IsWritableCompletion old c
        → IsWritableCompletion new c }
    ensures faults { (old new : List Relation) (log : Log) → AreSameButGiven old new → first_fault new log ≡ first_fault old log }
    ensures reports { (old new : List Relation) (r : Report) → AreSameButGiven old new → IsWritableReport old r
        → IsWritableReport new r }
{}

/// A law: what every specification keeps, as its parts say it.
pub(crate) fn is_specification(spec: &Specification)
    ensures { IsSpecification spec.now }
{
    let _ = spec.relations();
    let _ = spec.rules();
    let _ = spec.copies();
}
