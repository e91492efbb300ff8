ghost use Rattle.std.specs.Prelude.{◌≡◌, ◌≢◌, All, IfErr, IfOk, Ok, None, Some, codes};
ghost use Rattle.command_stages.specs.Named.{IsDetermined, IsReadFault};
ghost use Rattle.item_write.specs.Pieces.{spent_text};
ghost use Rattle.report_write.specs.Pieces.{brief_pieces};
ghost use Rattle.report_write.specs.Writable.{IsWritableReport};
ghost use Rattle.text_write.specs.Pieces.{text_of};
ghost use Rattle.explain_command.specs.Text.{decided, explained_done, explanation_pieces, undecided, undecided_text};
ghost use Rattle.explain_command.specs.Writable.{IsWritableExplained, IsWritableNeeded, IsWritableSpent};

use crate::needed::explanation_text;
use command_stages::{Done, Ending, Trouble};
use core_explain::Explained;
use currency_base::{ByteList, NoMemory};
use item_write::spent_text;
use minimal_items::{Needed, Spent};
use report_model::Report;
use report_write::write_brief;
use spec_items::items;
use spec_model::Specification;
use std::alloc::Global;

/// What is told of what explains a unit, which is counted from 1.
pub(crate) fn printed_explained(
    alloc: Global,
    spec: &Specification,
    unit: u32,
    explained: &Explained,
) -> Result<Done, Trouble>
    requires { IsWritableExplained spec.now explained.now }
    ensures printed { IsDetermined result → result ≡ explained_done spec.now unit explained.now }
    ensures inside { IsReadFault result → ⊥ }
    ensures not_words { IfErr result (λ e. e ≢ Trouble.Words) }
{
    match explained {
        Explained::Inconsistent(needed) => printed_needed(alloc, spec, None, needed.as_slice()),
        Explained::Unit(needed) => printed_needed(alloc, spec, Some(unit), needed.as_slice()),
        Explained::NoUnit(report) => printed_brief(alloc, spec, report),
        Explained::TooMany(_) => Err(Trouble::Limit(3)),
        Explained::Undecided(report) => printed_undecided(alloc, spec, report),
        Explained::Open(spent) => printed_open(alloc, spec, spent),
    }
}

/// An explanation, of the unit of this number or of inconsistency.
fn printed_needed(
    alloc: Global,
    spec: &Specification,
    what: Option<u32>,
    needed: &[Needed],
) -> Result<Done, Trouble>
    requires { All (IsWritableNeeded spec.now) needed.now }
    ensures printed { IfOk result (λ done. Ok done ≡ decided (text_of (explanation_pieces spec.now what needed.now))) }
    ensures memory { IfErr result (λ e. e ≡ Trouble.NoMemory) }
{
    done(explanation_text(alloc, spec, what, needed), Ending::Decided)
}

/// The report whose verdict has no such unit, in brief.
fn printed_brief(alloc: Global, spec: &Specification, report: &Report) -> Result<Done, Trouble>
    requires { IsWritableReport spec.now.relations report.now }
    ensures printed { IfOk result (λ done. Ok done ≡ decided (text_of (brief_pieces spec.now.relations report.now))) }
    ensures memory { IfErr result (λ e. e ≡ Trouble.NoMemory) }
{
    done(write_brief(alloc, spec, report), Ending::Decided)
}

/// That the budget is spent on the question itself.
fn printed_undecided(alloc: Global, spec: &Specification, report: &Report) -> Result<Done, Trouble>
    requires { IsWritableReport spec.now.relations report.now }
    ensures printed { IfOk result (λ done. Ok done ≡ undecided (undecided_text spec.now report.now)) }
    ensures memory { IfErr result (λ e. e ≡ Trouble.NoMemory) }
{
    done(undecided_text(alloc, spec, report), Ending::Undecided)
}

/// The text where the budget is spent on the question itself.
fn undecided_text(
    alloc: Global,
    spec: &Specification,
    report: &Report,
) -> Result<ByteList, NoMemory>
    requires { IsWritableReport spec.now.relations report.now }
    ensures { IfOk result (λ text. text ≡ undecided_text spec.now report.now) }
{
    let all = items(alloc, spec)?;
    spent_text(alloc, "explanation", spec, all.as_slice(), spec, report)
}

/// That the budget is spent on a part.
fn printed_open(alloc: Global, spec: &Specification, spent: &Spent) -> Result<Done, Trouble>
    requires { IsWritableSpent spec.now spent.now }
    ensures printed { IfOk result (λ done. Ok done ≡ undecided
        (spent_text (codes "explanation") spec.now spent.now.items spent.now.part.relations spent.now.report)) }
    ensures memory { IfErr result (λ e. e ≡ Trouble.NoMemory) }
{
    done(open_text(alloc, spec, spent), Ending::Undecided)
}

/// The text where the budget is spent on a part.
fn open_text(alloc: Global, spec: &Specification, spent: &Spent) -> Result<ByteList, NoMemory>
    requires { IsWritableSpent spec.now spent.now }
    ensures { IfOk result (λ text. text
        ≡ spent_text (codes "explanation") spec.now spent.now.items spent.now.part.relations spent.now.report) }
{
    let items = spent.items.as_slice();
    spent_text(
        alloc,
        "explanation",
        spec,
        items,
        &spent.part,
        &spent.report,
    )
}

/// What a command comes to with this text and this ending, unless there was no memory for the text.
fn done(text: Result<ByteList, NoMemory>, ending: Ending) -> Result<Done, Trouble>
    ensures printed { IfOk result (λ done. text ≡ Ok done.text × (done.ending ≡ ending)) }
    ensures memory { IfErr result (λ e. e ≡ Trouble.NoMemory) }
{
    match text {
        Ok(text) => Ok(Done { text, ending }),
        Err(_) => Err(Trouble::NoMemory),
    }
}
