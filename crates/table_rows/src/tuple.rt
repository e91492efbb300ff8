ghost use Rattle.std.specs.Prelude.{◌≡◌, ◌+◌, ◌^◌, ◌<◌, IfOk, drop, if◌then◌else◌};
ghost use Rattle.std.specs.Fmt.{decimal};
ghost use Rattle.table_rows.specs.Rows.{text_at, row_name};

use currency_base::{Name, NoMemory, Value};
use std::alloc::Global;

/// The first value's text, taken off; the empty text where it is none.
pub fn take_text(alloc: Global, values: &mut Vec<Value>) -> Result<Name, NoMemory>
    ensures text { IfOk result (λ name. name ≡ text_at values.old.items 0) }
    ensures rest { values.new.items ≡ drop 1 values.old.items }
{
    if values.is_empty() {
        return Name::from_bytes(alloc, b"");
    }
    match values.remove(0) {
        Value::Text(text) => Ok(text),
        Value::Int(_) => Name::from_bytes(alloc, b""),
    }
}

/// The name of the row at a place, taken off the front of its values where it stands there.
pub fn take_row_name(
    alloc: Global,
    values: &mut Vec<Value>,
    place: usize,
    named: bool,
) -> Result<Name, NoMemory>
    requires { place + 1 < 2 ^ 64 }
    ensures name { IfOk result (λ name. name ≡ row_name named (place, values.old.items)) }
    ensures rest { values.new.items ≡ (if named then drop 1 values.old.items else values.old.items) }
{
    if named {
        take_text(alloc, values)
    } else {
        number_name(alloc, place + 1)
    }
}

/// The name that writes a number.
fn number_name(alloc: Global, number: usize) -> Result<Name, NoMemory>
    ensures { IfOk result (λ name. name ≡ decimal number) }
{
    let text = format!(in alloc; "{number}")?;
    Name::from_bytes(alloc, text.as_str().as_bytes())
}
