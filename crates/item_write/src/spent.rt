ghost use Rattle.std.specs.Prelude.{◌≡◌, ◌++◌, All, Contains, IfOk, OnOk};
ghost use Rattle.report_write.specs.Pieces.{report_pieces};
ghost use Rattle.report_write.specs.Writable.{IsWritableReport};
ghost use Rattle.spec_items.specs.Items.{items_of};
ghost use Rattle.text_write.specs.Pieces.{text_of};
ghost use Rattle.text_write.specs.Spacing.{writes_all};
ghost use Rattle.item_write.specs.Pieces.{head_pieces, items_pieces, spent_text};

use crate::item::write_items;
use currency_base::{ByteList, NoMemory};
use report_model::Report;
use report_write::write_report;
use spec_items::Item;
use spec_model::Specification;
use std::alloc::Global;
use text_write::TextWriter;

/// Writes the head of a text of this form, of version 1.
pub fn write_head(into: &mut TextWriter, form: &str) -> Result<(), NoMemory>
    ensures { OnOk result (into.new ≡ writes_all into.old (head_pieces form.now)) }
{
    into.word("currency")?;
    into.word(form)?;
    into.word("1")?;
    into.symbol(";")
}

/// The text that was written, and after it the text of a report on a specification. Takes time in proportion to the text of the
/// report, and to the specification for each completion.
pub fn with_report(
    alloc: Global,
    into: TextWriter,
    spec: &Specification,
    report: &Report,
) -> Result<ByteList, NoMemory>
    requires { IsWritableReport spec.now.relations report.now }
    ensures { IfOk result (λ text. text ≡ into.text ++ text_of (report_pieces spec.now.relations report.now)) }
{
    let mut text = into.into_text();
    let told = write_report(alloc, spec, report)?;
    append(&mut text, told.as_slice())?;
    Ok(text)
}

/// What is told where a budget is spent on a part of a specification: these items, which are its own, and then the report on
/// the part that says so.
pub fn spent_text(
    alloc: Global,
    form: &str,
    spec: &Specification,
    items: &[Item],
    part: &Specification,
    report: &Report,
) -> Result<ByteList, NoMemory>
    requires items { All (Contains (items_of spec.now)) items.now }
    requires report { IsWritableReport part.now.relations report.now }
    ensures { IfOk result (λ text. text ≡ spent_text form.now spec.now items.now part.now.relations report.now) }
{
    let mut into = TextWriter::new(alloc);
    write_front(&mut into, form, spec, items)?;
    with_report(alloc, into, part, report)
}

/// Writes the head of a text of this form, and items.
#[tactic(auto, using(text_write::proofs::Writings::writes_append))]
fn write_front(
    into: &mut TextWriter,
    form: &str,
    spec: &Specification,
    items: &[Item],
) -> Result<(), NoMemory>
    requires { All (Contains (items_of spec.now)) items.now }
    ensures { OnOk result (into.new ≡ writes_all into.old (head_pieces form.now ++ items_pieces spec.now items.now)) }
{
    write_head(into, form)?;
    write_items(into, spec, items)
}

/// Appends bytes.
fn append(into: &mut ByteList, bytes: &[u8]) -> Result<(), NoMemory>
    ensures { OnOk result (into.new ≡ into.old ++ bytes.now) }
{
    for byte in bytes {
        into.push(*byte)?;
    }
    Ok(())
}
