ghost use Rattle.std.specs.Prelude.{◌≡◌, OnOk};
ghost use Rattle.text_write.specs.Spacing.{writes_all};
ghost use Rattle.spec_write.specs.Pieces.{attrs_pieces, kind_pieces, maybe_pieces, row_pieces};

use crate::listed::{Separator, Written, write_listed};
use currency_base::{NoMemory, ValueKind};
use spec_syntax::{AttrTree, AttrTreeList, Named};
use text_write::TextWriter;

/// Writes the column of the rows' names, where there is one.
pub fn write_row(into: &mut TextWriter, row: &Option<Named>) -> Result<(), NoMemory>
    ensures { OnOk result (into.new ≡ writes_all into.old (maybe_pieces row_pieces row.now)) }
{
    match row {
        None => Ok(()),
        Some(column) => {
            into.word("row")?;
            into.name(&column.name)
        }
    }
}

/// Writes the attributes, in parentheses.
#[tactic(auto, using(text_write::proofs::Writings::writes_append))]
pub fn write_attrs(into: &mut TextWriter, attrs: &AttrTreeList) -> Result<(), NoMemory>
    ensures { OnOk result (into.new ≡ writes_all into.old (attrs_pieces attrs.now)) }
{
    into.symbol("(")?;
    write_listed::<AttrText>(into, Separator::Comma, attrs)?;
    into.symbol(")")
}

/// An attribute and its kind.
enum AttrText {}

impl Written for AttrText {
    ghost use Rattle.spec_write.specs.Pieces.{attr_pieces};

    type Tree = AttrTree;

    ghost pieces = { attr_pieces };

    fn write(into: &mut TextWriter, attr: &AttrTree) -> Result<(), NoMemory> {
        into.name(&attr.name.name)?;
        into.symbol(":")?;
        write_kind(into, attr.kind)
    }
}

/// Writes the word of a kind.
fn write_kind(into: &mut TextWriter, kind: ValueKind) -> Result<(), NoMemory>
    ensures { OnOk result (into.new ≡ writes_all into.old (kind_pieces kind)) }
{
    match kind {
        ValueKind::Text => into.word("text"),
        ValueKind::Int => into.word("int"),
    }
}
