ghost use Rattle.std.specs.Prelude.{◌≡◌, ◌∷◌, All, IfOk, None, OnOk, Some};
ghost use Rattle.spec_model.specs.Completion.{HasShape};
ghost use Rattle.text_write.specs.Pieces.{text_of};
ghost use Rattle.text_write.specs.Spacing.{writes_all};
ghost use Rattle.explain_command.specs.Text.{explains_pieces, explanation_pieces, later_pieces, needed_pieces};
ghost use Rattle.explain_command.specs.Writable.{IsWritableNeeded};

use currency_base::{ByteList, NoMemory};
use item_write::{write_head, write_item};
use itoa::Buffer;
use minimal_items::Needed;
use report_write::{write_completion, write_later};
use spec_model::{Completion, Specification};
use std::alloc::Global;
use text_write::TextWriter;

/// The text of an explanation: of the unit of this number, or of inconsistency.
pub(crate) fn explanation_text(
    alloc: Global,
    spec: &Specification,
    what: Option<u32>,
    needed: &[Needed],
) -> Result<ByteList, NoMemory>
    requires { All (IsWritableNeeded spec.now) needed.now }
    ensures { IfOk result (λ text. text ≡ text_of (explanation_pieces spec.now what needed.now)) }
{
    let mut into = TextWriter::new(alloc);
    write_explanation(&mut into, spec, what, needed)?;
    Ok(into.into_text())
}

/// Writes an explanation.
#[tactic(auto, using(text_write::proofs::Writings::writes_append))]
fn write_explanation(
    into: &mut TextWriter,
    spec: &Specification,
    what: Option<u32>,
    needed: &[Needed],
) -> Result<(), NoMemory>
    requires { All (IsWritableNeeded spec.now) needed.now }
    ensures { OnOk result (into.new ≡ writes_all into.old (explanation_pieces spec.now what needed.now)) }
{
    write_head(into, "explanation")?;
    write_explains(into, what)?;
    write_needed(into, spec, needed)?;
    into.word("end")?;
    into.symbol(";")
}

/// Writes what is explained.
fn write_explains(into: &mut TextWriter, what: Option<u32>) -> Result<(), NoMemory>
    ensures { OnOk result (into.new ≡ writes_all into.old (explains_pieces what)) }
{
    match what {
        None => write_inconsistent(into),
        Some(unit) => write_unit(into, unit),
    }
}

/// Writes that inconsistency is explained.
fn write_inconsistent(into: &mut TextWriter) -> Result<(), NoMemory>
    ensures { OnOk result (into.new ≡ writes_all into.old (explains_pieces None)) }
{
    into.word("explains")?;
    into.word("inconsistent")?;
    into.symbol(";")
}

/// Writes which unit is explained.
fn write_unit(into: &mut TextWriter, unit: u32) -> Result<(), NoMemory>
    ensures { OnOk result (into.new ≡ writes_all into.old (explains_pieces (Some unit))) }
{
    let mut buffer = Buffer::new();
    into.word("explains")?;
    into.word(buffer.format(unit))?;
    into.symbol(";")
}

/// Writes needed items, each with a completion without it: the first one whole, and of each later one what differs from
/// the first.
fn write_needed(
    into: &mut TextWriter,
    spec: &Specification,
    needed: &[Needed],
) -> Result<(), NoMemory>
    requires { All (IsWritableNeeded spec.now) needed.now }
    ensures { OnOk result (into.new ≡ writes_all into.old (needed_pieces spec.now needed.now)) }
{
    match needed {
        [] => Ok(()),
        [first, later @ ..] => write_each(into, spec, first, later),
    }
}

/// Writes a needed item with its completion, and the later ones.
#[tactic(auto, using(text_write::proofs::Writings::writes_append))]
fn write_each(
    into: &mut TextWriter,
    spec: &Specification,
    first: &Needed,
    later: &[Needed],
) -> Result<(), NoMemory>
    requires first { IsWritableNeeded spec.now first.now }
    requires later { All (IsWritableNeeded spec.now) later.now }
    ensures { OnOk result (into.new ≡ writes_all into.old (needed_pieces spec.now (first.now ∷ later.now))) }
{
    write_item(into, spec, first.item)?;
    write_completion(into, spec, &first.without)?;
    for needed in later {
        write_without(into, spec, &first.without, needed)?;
    }
    Ok(())
}

/// Writes a needed item, and what differs in its completion from the first one.
#[tactic(auto, using(text_write::proofs::Writings::writes_append))]
fn write_without(
    into: &mut TextWriter,
    spec: &Specification,
    first: &Completion,
    needed: &Needed,
) -> Result<(), NoMemory>
    requires first { HasShape spec.now.relations first.now }
    requires needed { IsWritableNeeded spec.now needed.now }
    ensures { OnOk result (into.new ≡ writes_all into.old (later_pieces spec.now first.now needed.now)) }
{
    write_item(into, spec, needed.item)?;
    write_later(into, spec, first, &needed.without)
}
