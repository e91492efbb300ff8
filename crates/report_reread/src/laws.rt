ghost use Rattle.std.specs.Prelude.{◌≡◌, List, All, Ok};
ghost use Rattle.currency_report.specs.Reads.{ReadsReport, said};
ghost use Rattle.currency_report.specs.declared.report.Lines.{Lines};
ghost use Rattle.report_model.specs.declared.report.Report.{Report};
ghost use Rattle.report_reread.specs.Trees.{tree_of, unlined_report};
ghost use Rattle.report_syntax.specs.declared.tree.ReportTree.{ReportTree};
ghost use Rattle.report_write.specs.Pieces.{report_pieces};
ghost use Rattle.report_write.specs.Writable.{HasTextNames, IsWritableReport};
ghost use Rattle.spec_model.specs.Facts.{AreRelations};
ghost use Rattle.spec_model.specs.declared.relation.Relation.{Relation};
ghost use Rattle.text_write.specs.Pieces.{text_of};

use crate::spelled::written_is_spelled;

/// A law: the tree of a report that can be written says the report.
pub fn tree_says_report()
    ensures { (relations : List Relation) (r : Report) → AreRelations relations → IsWritableReport relations r
        → (t : ReportTree) → unlined_report t ≡ tree_of relations r
        → (lines : Lines) × (said relations t ≡ Ok (record { report = r; lines = lines })) }
{}

/// A law: reading what was written of a report that can be written gives the report again.
pub fn written_is_read()
    ensures { (relations : List Relation) (r : Report) → AreRelations relations → All HasTextNames relations
        → IsWritableReport relations r
        → (lines : Lines) × ReadsReport relations (text_of (report_pieces relations r)) (record { report = r; lines = lines }) }
{
    tree_says_report();
    written_is_spelled();
}
