//! What is told of what is found of the entities of a relation.

ghost use Rattle.std.specs.Prelude.{◌≡◌, All, IfErr, IfOk, OnOk, length};
ghost use Rattle.golden_command.specs.Text.{golden_done, golden_text, inconsistent_pieces, inconsistent_text};
ghost use Rattle.golden_command.specs.Text.{undecided_text};
ghost use Rattle.golden_command.specs.Writable.{IsWritableGolden};
ghost use Rattle.golden_values.specs.Golden.{IsPosed};
ghost use Rattle.report_write.specs.Writable.{IsWritableReport};
ghost use Rattle.text_write.specs.Spacing.{writes_all};

use crate::records::records;
use command_stages::{Done, Ending, Trouble};
use currency_base::{ByteList, NoMemory};
use fact_write::open_text;
use golden_values::{FieldTable, Golden, Posed};
use record_text::records_text;
use report_model::Report;
use spec_model::{Relation, Specification};
use std::alloc::Global;
use text_write::TextWriter;

/// What is told of what is found, where the entity column has this name.
pub(crate) fn printed_golden(
    alloc: Global,
    spec: &Specification,
    column: ByteList,
    relation: &Relation,
    found: &Golden,
) -> Result<Done, Trouble>
    requires { IsWritableGolden spec.now relation.now found.now }
    ensures printed { IfOk result (λ done. done ≡ golden_done spec.now column relation.now found.now) }
    ensures memory { IfErr result (λ e. e ≡ Trouble.NoMemory) }
{
    match done_of(alloc, spec, column, relation, found) {
        Ok(done) => Ok(done),
        Err(NoMemory) => Err(Trouble::NoMemory),
    }
}

/// The same, refused for want of memory alone.
fn done_of(
    alloc: Global,
    spec: &Specification,
    column: ByteList,
    relation: &Relation,
    found: &Golden,
) -> Result<Done, NoMemory>
    requires { IsWritableGolden spec.now relation.now found.now }
    ensures { IfOk result (λ done. done ≡ golden_done spec.now column relation.now found.now) }
{
    match found {
        Golden::Records(table) => Ok(Done {
            text: table_text(alloc, column, relation, table)?,
            ending: Ending::Tabled,
        }),
        Golden::Inconsistent => Ok(Done {
            text: inconsistent(alloc)?,
            ending: Ending::Inconsistent,
        }),
        Golden::Undecided { posed, report } => Ok(Done {
            text: undecided(alloc, spec, posed, report)?,
            ending: Ending::Open,
        }),
    }
}

/// The text of all records.
fn table_text(
    alloc: Global,
    column: ByteList,
    relation: &Relation,
    table: &FieldTable,
) -> Result<ByteList, NoMemory>
    requires entities { length table.now ≡ length relation.now.entities }
    requires attrs { All (λ fields. length fields ≡ length relation.now.attrs) table.now }
    ensures { IfOk result (λ text. text ≡ golden_text column relation.now table.now) }
{
    let list = records(alloc, column, relation, table.as_slice())?;
    records_text(alloc, list.as_slice())
}

/// The text that there is no consistent completion.
fn inconsistent(alloc: Global) -> Result<ByteList, NoMemory>
    ensures { IfOk result (λ text. text ≡ inconsistent_text) }
{
    let mut into = TextWriter::new(alloc);
    write_inconsistent(&mut into)?;
    Ok(into.into_text())
}

/// Writes that there is no consistent completion.
#[tactic(auto, using(text_write::proofs::Writings::writes_append))]
fn write_inconsistent(into: &mut TextWriter) -> Result<(), NoMemory>
    ensures { OnOk result (into.new ≡ writes_all into.old inconsistent_pieces) }
{
    into.word("currency")?;
    into.word("brief")?;
    into.word("2")?;
    into.symbol(";")?;
    into.word("verdict")?;
    into.word("inconsistent")?;
    into.symbol(";")?;
    into.word("end")?;
    into.symbol(";")
}

/// The text where the budget is spent.
fn undecided(
    alloc: Global,
    spec: &Specification,
    posed: &Posed,
    report: &Report,
) -> Result<ByteList, NoMemory>
    requires posed { IsPosed spec.now posed.now }
    requires report { IsWritableReport spec.now.relations report.now }
    ensures { IfOk result (λ text. text ≡ undecided_text spec.now posed.now report.now) }
{
    match posed {
        Posed::Consistent => open_text(alloc, spec, None, report),
        Posed::Fact(fact) => open_text(alloc, spec, Some(fact), report),
    }
}
