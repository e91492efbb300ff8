ghost use Rattle.std.specs.Prelude.{◌≡◌, All, Contains, IfErr, IfOk};
ghost use Rattle.report_write.specs.Writable.{IsWritableReport};
ghost use Rattle.spec_items.specs.Items.{items_of};
ghost use Rattle.conflicts_command.specs.Listed.{IsListed, IsWritableFound};
ghost use Rattle.conflicts_command.specs.Text.{conflicts_done, conflicts_ending, conflicts_text, listed_text};
ghost use Rattle.conflicts_command.specs.Text.{stopped_text};

use crate::writing::{write_conflicts, write_front};
use command_stages::{Done, Ending, Trouble};
use currency_base::{ByteList, NoMemory};
use item_write::with_report;
use part_conflicts::{Conflict, Found};
use report_model::Report;
use spec_items::{Item, items};
use spec_model::Specification;
use std::alloc::Global;
use text_write::TextWriter;

/// What is told of what is found of the smallest parts.
pub(crate) fn printed_found(alloc: Global, found: &Found) -> Result<Done, Trouble>
    requires { IsWritableFound found.now }
    ensures printed { IfOk result (λ done. done ≡ conflicts_done found.now) }
    ensures memory { IfErr result (λ e. e ≡ Trouble.NoMemory) }
{
    match found_text(alloc, found) {
        Ok(text) => Ok(Done {
            text,
            ending: ending_of(found),
        }),
        Err(_) => Err(Trouble::NoMemory),
    }
}

// How it ends.
fn ending_of(found: &Found) -> Ending
    ensures { result ≡ conflicts_ending found.now }
{
    match found {
        Found::All(_) => Ending::Decided,
        Found::Undecided { .. } => Ending::Undecided,
        Found::Open { .. } => Ending::Undecided,
    }
}

// The text of what is found.
fn found_text(alloc: Global, found: &Found) -> Result<ByteList, NoMemory>
    requires { IsWritableFound found.now }
    ensures { IfOk result (λ text. text ≡ conflicts_text found.now) }
{
    match found {
        Found::All(list) => all_text(alloc, list.as_slice()),
        Found::Undecided { part, report } => undecided_text(alloc, part, report),
        Found::Open { part, spent } => {
            spent_text(
                alloc,
                part,
                spent.items.as_slice(),
                &spent.part,
                &spent.report,
            )
        }
    }
}

// The text of the inconsistent parts.
fn all_text(alloc: Global, found: &[Conflict]) -> Result<ByteList, NoMemory>
    requires { All IsListed found.now }
    ensures { IfOk result (λ text. text ≡ listed_text found.now) }
{
    let mut into = TextWriter::new(alloc);
    write_conflicts(&mut into, found)?;
    Ok(into.into_text())
}

// The text of a part for which the budget is spent with all of its items.
fn undecided_text(
    alloc: Global,
    part: &Specification,
    report: &Report,
) -> Result<ByteList, NoMemory>
    requires { IsWritableReport part.now.relations report.now }
    ensures { IfOk result (λ text. text ≡ stopped_text part.now (items_of part.now) part.now.relations report.now) }
{
    let list = items(alloc, part)?;
    spent_text(alloc, part, list.as_slice(), part, report)
}

// The text of a part for which the budget is spent with these of its items: its entities, these items, and the report
// on the specification that was tried.
fn spent_text(
    alloc: Global,
    part: &Specification,
    items: &[Item],
    tried: &Specification,
    report: &Report,
) -> Result<ByteList, NoMemory>
    requires items { All (Contains (items_of part.now)) items.now }
    requires report { IsWritableReport tried.now.relations report.now }
    ensures { IfOk result (λ text. text ≡ stopped_text part.now items.now tried.now.relations report.now) }
{
    let mut into = TextWriter::new(alloc);
    write_front(&mut into, part, items)?;
    with_report(alloc, into, tried, report)
}
