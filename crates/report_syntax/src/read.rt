ghost use Rattle.std.specs.Prelude.{◌≡◌, ◌⊎◌, IfOk, IfErr};
ghost use Rattle.report_syntax.specs.Reads.{ReadsReportText, RefusesReportText};
ghost use Rattle.report_syntax.specs.Sizes.{HasShortLists};

use crate::ReportTree;
use crate::report::ReportRule;
use std::alloc::Global;
use text_grammar::read_text;
use text_tokens::TextFault;

/// The report that a text spells. A text that spells none is refused at the first wrong token.
pub fn read_report_tree(alloc: Global, source: &[u8]) -> Result<ReportTree, TextFault>
    ensures read { IfOk result (ReadsReportText source.now) }
    ensures short { IfOk result HasShortLists }
    ensures refused { IfErr result (λ e. (e ≡ TextFault.NoMemory) ⊎ RefusesReportText source.now e) }
{
    read_text::<ReportRule>(alloc, source)
}
