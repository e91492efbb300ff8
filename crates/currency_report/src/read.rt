ghost use Rattle.std.specs.Prelude.{◌≡◌, ◌<◌, ◌^◌, ◌⊎◌, None, All, IfOk, IfErr, length};
ghost use Rattle.refutation_log.specs.Numbered.{IsNumbered};
ghost use Rattle.log_form.specs.Form.{first_fault};
ghost use Rattle.spec_model.specs.Completion.{HasShape};
ghost use Rattle.currency_report.specs.Lines.{AreLinesOf};
ghost use Rattle.currency_report.specs.Reads.{ReadsReport, RefusesReport};

use crate::said::report_said;
use crate::{ReadReport, ReportFault};
use log_form::literals_are_of_statements;
use report_syntax::read_report_tree;
use spec_model::Specification;
use std::alloc::Global;

/// The report on a specification that a text says, of version 1 or 2. A place that a completion does not rank
/// has the empty list; in a later completion of version 2 it has the first completion's. Takes time in
/// proportion to the text, and to the specification for each completion.
///
/// Refused are E01 and E02 where the text is none of the grammar, and then, by the first clause at fault, E03 where
/// a name or a literal's statement is not there, E04 where a completion ranks a place twice or a statement is
/// not above the one before it, E05 where the row of a `last` is not the first of its entity with its value,
/// E10 where a row is not there, and E11 where the rows of a `before` are of two entities or not in order.
pub fn read_report(
    alloc: Global,
    source: &[u8],
    spec: &Specification,
) -> Result<ReadReport, ReportFault>
    ensures read { IfOk result (ReadsReport spec.now.relations source.now) }
    ensures shape { IfOk result (λ r. All (HasShape spec.now.relations) r.report.completions) }
    ensures few { IfOk result (λ r. length r.report.completions < 2 ^ 32) }
    ensures numbered { IfOk result (λ r. IsNumbered r.report.log.statements r.report.log.steps) }
    ensures well_formed { IfOk result (λ r. first_fault spec.now.relations r.report.log ≡ None) }
    ensures lines { IfOk result (λ r. AreLinesOf r.report r.lines) }
    ensures refused { IfErr result (λ e. (e ≡ ReportFault.NoMemory) ⊎ RefusesReport spec.now.relations source.now e) }
{
    // That a log's literals are numbered by its statements is what this law tells.
    literals_are_of_statements();
    match read_report_tree(alloc, source) {
        Ok(tree) => report_said(alloc, spec, tree),
        Err(fault) => Err(ReportFault::from(fault)),
    }
}
