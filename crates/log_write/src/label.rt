ghost use Rattle.std.specs.Prelude.{◌≡◌, OnOk};
ghost use Rattle.refutation_log.specs.Steps.{label_of};
ghost use Rattle.text_write.specs.Spacing.{writes_all};
ghost use Rattle.log_write.specs.Pieces.{label_pieces, pair_pieces, triple_pieces};

use crate::many::{EntityText, RowText, write_many};
use crate::number::{write_cell, write_number};
use crate::values::write_values;
use currency_base::{AttrId, NoMemory, RelId, RowId};
use refutation_log::LabelRef;
use text_write::TextWriter;

/// Writes a label.
#[tactic(auto, using(text_write::proofs::Writings::writes_append))]
pub fn write_label(into: &mut TextWriter, label: LabelRef<'_>) -> Result<(), NoMemory>
    ensures { OnOk result (into.new ≡ writes_all into.old (label_pieces (label_of label.entry))) }
{
    match label {
        LabelRef::Given {
            rel,
            attr,
            earlier,
            later,
        } => {
            into.word("given")?;
            write_cell(into, rel, attr, earlier)?;
            write_number(into, later.0)
        }
        LabelRef::Transitive {
            rel,
            attr,
            first,
            second,
            third,
        } => {
            into.word("transitive")?;
            write_triple(into, rel, attr, first, second, third)
        }
        LabelRef::Rule { rule, rows } => {
            into.word("rule")?;
            write_number(into, rule.0)?;
            write_many::<RowText>(into, rows)
        }
        LabelRef::Copy {
            copy,
            place,
            first,
            second,
        } => {
            into.word("copy")?;
            write_number(into, copy.0)?;
            write_number(into, place)?;
            write_pair(into, first, second)
        }
        LabelRef::Above {
            rel,
            attr,
            row,
            other,
        } => {
            into.word("above")?;
            write_cell(into, rel, attr, row)?;
            write_number(into, other.0)
        }
        LabelRef::Top { rel, attr, row } => {
            into.word("top")?;
            write_cell(into, rel, attr, row)
        }
        LabelRef::Last { rel, attr, row } => {
            into.word("last")?;
            write_cell(into, rel, attr, row)
        }
        LabelRef::Value { rel, attr, row } => {
            into.word("value")?;
            write_cell(into, rel, attr, row)
        }
        LabelRef::Match {
            disjunct,
            entities,
            values,
        } => {
            into.word("match")?;
            write_number(into, disjunct)?;
            write_many::<EntityText>(into, entities)?;
            write_values(into, values)
        }
    }
}

/// Writes the numbers of two rows.
fn write_pair(into: &mut TextWriter, first: RowId, second: RowId) -> Result<(), NoMemory>
    ensures { OnOk result (into.new ≡ writes_all into.old (pair_pieces first second)) }
{
    write_number(into, first.0)?;
    write_number(into, second.0)
}

/// Writes the numbers of a relation, of an attribute of it and of three rows.
#[tactic(auto, using(text_write::proofs::Writings::writes_append))]
fn write_triple(
    into: &mut TextWriter,
    rel: RelId,
    attr: AttrId,
    first: RowId,
    second: RowId,
    third: RowId,
) -> Result<(), NoMemory>
    ensures { OnOk result (into.new ≡ writes_all into.old (triple_pieces rel attr first second third)) }
{
    write_cell(into, rel, attr, first)?;
    write_pair(into, second, third)
}
