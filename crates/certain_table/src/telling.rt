//! What is told of a report that answers a query.

ghost use Rattle.std.specs.Prelude.{◌≡◌, ◌∷◌, IfErr, IfOk, map, true};
ghost use Rattle.answer_tables.specs.Records.{head_names, tuple_fields};
ghost use Rattle.certain_table.specs.Table.{table_done, table_text};
ghost use Rattle.report_write.specs.Writable.{IsWritableReport};
ghost use Rattle.answer_texts.specs.Answers.{answer_text};

use answer_tables::{head_record, tuple_record};
use answer_texts::printed_report;
use command_stages::{Done, Ending, Trouble};
use currency_base::{ByteList, NoMemory, TupleList};
use question_syntax::QueryTree;
use record_text::{RecordList, records_text};
use report_model::{Report, Verdict};
use spec_model::Specification;
use std::alloc::Global;

/// What a report on a query is told as.
pub(crate) fn printed_table(
    alloc: Global,
    spec: &Specification,
    query: &QueryTree,
    report: &Report,
) -> Result<Done, Trouble>
    requires { IsWritableReport spec.now.relations report.now }
    ensures printed { IfOk result (λ done. done ≡ table_done spec.now.relations query.now report.now) }
    ensures memory { IfErr result (λ e. e ≡ Trouble.NoMemory) }
{
    match &report.verdict {
        Verdict::Answers(tuples) => printed_tuples(alloc, query, tuples),
        Verdict::Inconsistent => printed_brief(alloc, spec, report, Ending::Inconsistent),
        _ => printed_brief(alloc, spec, report, Ending::Open),
    }
}

/// The certain answers.
fn printed_tuples(alloc: Global, query: &QueryTree, tuples: &TupleList) -> Result<Done, Trouble>
    ensures printed { IfOk result (λ done. done ≡ record { text = table_text query.now tuples.now; ending = Ending.Tabled }) }
    ensures memory { IfErr result (λ e. e ≡ Trouble.NoMemory) }
{
    match table_text(alloc, query, tuples) {
        Ok(text) => Ok(Done {
            text,
            ending: Ending::Tabled,
        }),
        Err(NoMemory) => Err(Trouble::NoMemory),
    }
}

/// The text of a table: the names of the head's variables, and the tuples.
fn table_text(alloc: Global, query: &QueryTree, tuples: &TupleList) -> Result<ByteList, NoMemory>
    ensures { IfOk result (λ text. text ≡ table_text query.now tuples.now) }
{
    let records = records(alloc, query, tuples)?;
    records_text(alloc, records.as_slice())
}

/// The records of a table.
fn records(alloc: Global, query: &QueryTree, tuples: &TupleList) -> Result<RecordList, NoMemory>
    ensures { IfOk result (λ list. list ≡ head_names query.now ∷ map tuple_fields tuples.now) }
{
    let mut list = RecordList::new(alloc);
    list.push(head_record(alloc, query)?)?;
    for tuple in tuples.as_slice() {
        list.push(tuple_record(alloc, tuple)?)?;
    }
    Ok(list)
}

/// That there is no consistent completion, or that the budget is spent.
fn printed_brief(
    alloc: Global,
    spec: &Specification,
    report: &Report,
    ending: Ending,
) -> Result<Done, Trouble>
    requires { IsWritableReport spec.now.relations report.now }
    ensures printed { IfOk result
        (λ done. done ≡ record { text = answer_text spec.now.relations true report.now; ending = ending }) }
    ensures memory { IfErr result (λ e. e ≡ Trouble.NoMemory) }
{
    let Done { text, .. } = printed_report(alloc, spec, true, report)?;
    Ok(Done { text, ending })
}
