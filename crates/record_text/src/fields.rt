//! Values as fields.

ghost use Rattle.std.specs.Prelude.{◌≡◌, IfOk};
ghost use Rattle.record_text.specs.Fields.{value_bytes};

use currency_base::{ByteList, NoMemory, Value};
use itoa::Buffer;
use std::alloc::Global;

/// A list of these bytes.
pub fn bytes_of(alloc: Global, bytes: &[u8]) -> Result<ByteList, NoMemory>
    ensures { IfOk result (λ list. list ≡ bytes.now) }
{
    let mut list = Vec::new(alloc);
    list.extend_from_slice(bytes)?;
    Ok(ByteList::from_items(list))
}

/// A value as a field: a text as it is, a number by its digits.
pub fn value_bytes(alloc: Global, value: &Value) -> Result<ByteList, NoMemory>
    ensures { IfOk result (λ bytes. bytes ≡ value_bytes value.now) }
{
    match value {
        Value::Text(text) => bytes_of(alloc, text.bytes()),
        Value::Int(number) => {
            let mut buffer = Buffer::new();
            bytes_of(alloc, buffer.format(*number).as_bytes())
        }
    }
}
