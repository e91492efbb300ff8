//! The text of the table.

ghost use Rattle.std.specs.Prelude.{◌≡◌, ◌∷◌, ◌++◌, [], IfOk, codes, map};
ghost use Rattle.answer_tables.specs.Records.{head_names, tuple_fields};
ghost use Rattle.possible_table.specs.Text.{certain_word, possible_text, row_of};
ghost use Rattle.query_model.specs.Answers.{AreAscending};

use answer_tables::{head_record, tuple_record};
use currency_base::{ByteList, NoMemory, Tuple, TupleList};
use possible_answers::is_among;
use question_syntax::QueryTree;
use record_text::{Record, RecordList, bytes_of, records_text};
use std::alloc::Global;

/// The names of the head's variables and `certain`, and the tuples, each with `yes` where it is among the certain ones.
pub(crate) fn possible_text(
    alloc: Global,
    query: &QueryTree,
    certain: &TupleList,
    tuples: &TupleList,
) -> Result<ByteList, NoMemory>
    requires { AreAscending certain.now }
    ensures { IfOk result (λ text. text ≡ possible_text query.now certain.now tuples.now) }
{
    let records = records(alloc, query, certain, tuples)?;
    records_text(alloc, records.as_slice())
}

/// The records of the table.
fn records(
    alloc: Global,
    query: &QueryTree,
    certain: &TupleList,
    tuples: &TupleList,
) -> Result<RecordList, NoMemory>
    requires { AreAscending certain.now }
    ensures { IfOk result (λ list. list ≡ (head_names query.now ++ codes "certain" ∷ [])
        ∷ map (row_of certain.now) tuples.now) }
{
    let mut list = RecordList::new(alloc);
    let mut header = head_record(alloc, query)?;
    header.push(bytes_of(alloc, "certain".as_bytes())?)?;
    list.push(header)?;
    for tuple in tuples.as_slice() {
        list.push(row_of(alloc, certain, tuple)?)?;
    }
    Ok(list)
}

/// The record of a tuple.
fn row_of(alloc: Global, certain: &TupleList, tuple: &Tuple) -> Result<Record, NoMemory>
    requires { AreAscending certain.now }
    ensures { IfOk result (λ row. row ≡ row_of certain.now tuple.now) }
{
    let mut row = tuple_record(alloc, tuple)?;
    row.push(bytes_of(alloc, certain_word(certain, tuple).as_bytes())?)?;
    Ok(row)
}

/// Is the tuple certain?
fn certain_word(certain: &TupleList, tuple: &Tuple) -> &'static str
    requires { AreAscending certain.now }
    ensures { result.now ≡ certain_word certain.now tuple.now }
{
    if is_among(certain, tuple) {
        "yes"
    } else {
        "no"
    }
}
