ghost use Rattle.std.specs.Prelude.{◌≡◌, IfOk, OnOk};
ghost use Rattle.report_write.specs.Pieces.{brief_pieces, report_pieces, shown_pieces, verdict_pieces};
ghost use Rattle.report_write.specs.Writable.{IsWritableReport};
ghost use Rattle.text_write.specs.Pieces.{text_of};
ghost use Rattle.text_write.specs.Spacing.{writes_all};

use crate::completions::write_completions;
use crate::verdict::write_claim;
use currency_base::{ByteList, NoMemory};
use log_write::write_log_into;
use report_model::Report;
use spec_model::Specification;
use std::alloc::Global;
use text_write::TextWriter;

/// The text of a report on a specification, of version 2, a line a clause: the first completion with each
/// ranking that has a row, of each later one the rankings that differ from the first one's, and the log where
/// it has a statement or a step. Takes time in proportion to the text, and to the specification for each
/// completion.
pub fn write_report(
    alloc: Global,
    spec: &Specification,
    report: &Report,
) -> Result<ByteList, NoMemory>
    requires { IsWritableReport spec.now.relations report.now }
    ensures { IfOk result (λ text. text ≡ text_of (report_pieces spec.now.relations report.now)) }
{
    let mut into = TextWriter::new(alloc);
    write_whole(&mut into, spec, report)?;
    Ok(into.into_text())
}

/// The same text without the log, with `brief` in place of `report`.
pub fn write_brief(
    alloc: Global,
    spec: &Specification,
    report: &Report,
) -> Result<ByteList, NoMemory>
    requires { IsWritableReport spec.now.relations report.now }
    ensures { IfOk result (λ text. text ≡ text_of (brief_pieces spec.now.relations report.now)) }
{
    let mut into = TextWriter::new(alloc);
    write_without_log(&mut into, spec, report)?;
    Ok(into.into_text())
}

/// The verdict alone, with its items: what the brief text has between its first line and its completions.
pub fn write_verdict(
    alloc: Global,
    spec: &Specification,
    report: &Report,
) -> Result<ByteList, NoMemory>
    requires { IsWritableReport spec.now.relations report.now }
    ensures { IfOk result (λ text. text ≡ text_of (verdict_pieces spec.now.relations report.now.verdict)) }
{
    let mut into = TextWriter::new(alloc);
    write_claimed(&mut into, spec, report)?;
    Ok(into.into_text())
}

/// Writes the verdict of a report, with its items.
#[tactic(auto, using(text_write::proofs::Writings::writes_append))]
fn write_claimed(
    into: &mut TextWriter,
    spec: &Specification,
    report: &Report,
) -> Result<(), NoMemory>
    requires { IsWritableReport spec.now.relations report.now }
    ensures { OnOk result (into.new ≡ writes_all into.old (verdict_pieces spec.now.relations report.now.verdict)) }
{
    into.word("verdict")?;
    write_claim(into, spec.relations(), &report.verdict)
}

/// Writes a report with its log.
#[tactic(auto, using(text_write::proofs::Writings::writes_append))]
fn write_whole(into: &mut TextWriter, spec: &Specification, report: &Report) -> Result<(), NoMemory>
    requires { IsWritableReport spec.now.relations report.now }
    ensures { OnOk result (into.new ≡ writes_all into.old (report_pieces spec.now.relations report.now)) }
{
    write_shown(into, "report", spec, report)?;
    write_log_into(into, &report.log)?;
    into.word("end")?;
    into.symbol(";")
}

/// Writes a brief text.
#[tactic(auto, using(text_write::proofs::Writings::writes_append))]
fn write_without_log(
    into: &mut TextWriter,
    spec: &Specification,
    report: &Report,
) -> Result<(), NoMemory>
    requires { IsWritableReport spec.now.relations report.now }
    ensures { OnOk result (into.new ≡ writes_all into.old (brief_pieces spec.now.relations report.now)) }
{
    write_shown(into, "brief", spec, report)?;
    into.word("end")?;
    into.symbol(";")
}

/// Writes the head of a text of this form, the verdict and the completions.
#[tactic(auto, using(text_write::proofs::Writings::writes_append))]
fn write_shown(
    into: &mut TextWriter,
    form: &str,
    spec: &Specification,
    report: &Report,
) -> Result<(), NoMemory>
    requires { IsWritableReport spec.now.relations report.now }
    ensures { OnOk result (into.new ≡ writes_all into.old (shown_pieces form.now spec.now.relations report.now)) }
{
    into.word("currency")?;
    into.word(form)?;
    into.word("2")?;
    into.symbol(";")?;
    into.word("verdict")?;
    write_claim(into, spec.relations(), &report.verdict)?;
    write_completions(into, spec, report.completions.as_slice())
}
