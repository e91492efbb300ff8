ghost use Rattle.std.specs.Prelude.{◌≡◌, OnOk};
ghost use Rattle.text_write.specs.Spacing.{writes_all};
ghost use Rattle.log_write.specs.Pieces.{constants_pieces, values_pieces};

use crate::many::{Written, write_many};
use currency_base::{NoMemory, Value};
use text_write::TextWriter;

/// Writes values in brackets, with commas between them.
#[tactic(auto, using(text_write::proofs::Writings::writes_append))]
pub fn write_values(into: &mut TextWriter, values: &[Value]) -> Result<(), NoMemory>
    ensures { OnOk result (into.new ≡ writes_all into.old (values_pieces values.now)) }
{
    into.symbol("(")?;
    write_constants(into, values)?;
    into.symbol(")")
}

/// Writes constants with commas between them.
#[tactic(auto, using(text_write::proofs::Writings::writes_append))]
fn write_constants(into: &mut TextWriter, values: &[Value]) -> Result<(), NoMemory>
    ensures { OnOk result (into.new ≡ writes_all into.old (constants_pieces values.now)) }
{
    match values {
        [] => Ok(()),
        [first, rest @ ..] => {
            into.value(first)?;
            write_many::<FurtherText>(into, rest)
        }
    }
}

/// A comma and a constant.
enum FurtherText {}

impl Written for FurtherText {
    ghost use Rattle.log_write.specs.Pieces.{further_pieces};

    type Item = Value;

    ghost pieces = { further_pieces };

    fn write(into: &mut TextWriter, value: &Value) -> Result<(), NoMemory> {
        into.symbol(",")?;
        into.value(value)
    }
}
