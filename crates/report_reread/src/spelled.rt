ghost use Rattle.std.specs.Prelude.{◌≡◌, List, All};
ghost use Rattle.report_model.specs.declared.report.Report.{Report};
ghost use Rattle.report_reread.specs.Trees.{tree_of, unlined_report};
ghost use Rattle.report_syntax.specs.Reads.{ReadsReportText};
ghost use Rattle.report_syntax.specs.declared.tree.ReportTree.{ReportTree};
ghost use Rattle.report_write.specs.Pieces.{report_pieces};
ghost use Rattle.report_write.specs.Writable.{HasTextNames, IsWritableReport};
ghost use Rattle.spec_model.specs.declared.relation.Relation.{Relation};
ghost use Rattle.text_write.specs.Pieces.{text_of};

use currency_base::laws_of_literals;

/// A law: the text that is written of a report that can be written spells the tree of the report, its lines
/// aside.
pub fn written_is_spelled()
    ensures { (relations : List Relation) (r : Report) → All HasTextNames relations → IsWritableReport relations r
        → (t : ReportTree) × ReadsReportText (text_of (report_pieces relations r)) t
        × (unlined_report t ≡ tree_of relations r) }
{
    laws_of_literals();
}
