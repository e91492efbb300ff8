//! The records of a table of tuples.

ghost use Rattle.std.specs.Prelude.{◌≡◌, IfOk, map};
ghost use Rattle.answer_tables.specs.Records.{head_names};
ghost use Rattle.record_text.specs.Fields.{value_bytes};

use currency_base::{NoMemory, Tuple};
use question_syntax::QueryTree;
use record_text::{Record, bytes_of, value_bytes};
use std::alloc::Global;

/// The names of the head's variables.
pub fn head_record(alloc: Global, query: &QueryTree) -> Result<Record, NoMemory>
    ensures { IfOk result (λ one. one ≡ head_names query.now) }
{
    let mut record = Record::new(alloc);
    for named in query.head.as_slice() {
        record.push(bytes_of(alloc, named.name.bytes())?)?;
    }
    Ok(record)
}

/// The values of a tuple.
pub fn tuple_record(alloc: Global, tuple: &Tuple) -> Result<Record, NoMemory>
    ensures { IfOk result (λ one. one ≡ map value_bytes tuple.now) }
{
    let mut record = Record::new(alloc);
    for value in tuple.as_slice() {
        record.push(value_bytes(alloc, value)?)?;
    }
    Ok(record)
}
