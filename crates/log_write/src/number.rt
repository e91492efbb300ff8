ghost use Rattle.std.specs.Prelude.{◌≡◌, OnOk};
ghost use Rattle.text_write.specs.Spacing.{writes_all};
ghost use Rattle.log_write.specs.Pieces.{cell_pieces, lit_pieces, number_pieces};

use currency_base::{AttrId, Lit, NoMemory, RelId, RowId, Value};
use text_write::TextWriter;

/// Writes a place, counted from 1.
pub fn write_number(into: &mut TextWriter, place: u32) -> Result<(), NoMemory>
    ensures { OnOk result (into.new ≡ writes_all into.old (number_pieces place)) }
{
    into.value(&Value::Int(place as i64 + 1))
}

/// Writes a literal: its statement's number, with a minus for the negation.
pub fn write_lit(into: &mut TextWriter, lit: Lit) -> Result<(), NoMemory>
    ensures { OnOk result (into.new ≡ writes_all into.old (lit_pieces lit)) }
{
    if lit.negative() {
        into.value(&Value::Int(-1 - lit.var() as i64))
    } else {
        into.value(&Value::Int(lit.var() as i64 + 1))
    }
}

/// Writes the numbers of a relation, of an attribute of it and of a row.
pub fn write_cell(
    into: &mut TextWriter,
    rel: RelId,
    attr: AttrId,
    row: RowId,
) -> Result<(), NoMemory>
    ensures { OnOk result (into.new ≡ writes_all into.old (cell_pieces rel attr row)) }
{
    write_number(into, rel.0)?;
    write_number(into, attr.0)?;
    write_number(into, row.0)
}
