ghost use Rattle.std.specs.Prelude.{◌≡◌, List, OnOk};
ghost use Rattle.text_write.specs.Pieces.{Piece};
ghost use Rattle.text_write.specs.Spacing.{writes_all};
ghost use Rattle.log_write.specs.Pieces.{many_pieces};

use crate::number::{write_lit, write_number};
use currency_base::{EntId, Lit, NoMemory, RowId};
use text_write::TextWriter;

/// How an item of a list is written. A type that stands for the rule implements it; no value of that type is
/// made.
pub trait Written {
    /// What is written.
    type Item;

    /// The tokens of an item.
    ghost pieces: { Self.Item → List Piece };

    /// Writes an item.
    fn write(into: &mut TextWriter, item: &Self::Item) -> Result<(), NoMemory>
        ensures { OnOk result (into.new ≡ writes_all into.old (pieces item.now)) };
}

/// Writes items one after another.
pub fn write_many<W: Written>(into: &mut TextWriter, items: &[W::Item]) -> Result<(), NoMemory>
    ensures { OnOk result (into.new ≡ writes_all into.old (many_pieces W.pieces items.now)) }
{
    for item in items {
        W::write(into, item)?;
    }
    Ok(())
}

/// The number of a row.
pub enum RowText {}

impl Written for RowText {
    ghost use Rattle.log_write.specs.Pieces.{row_pieces};

    type Item = RowId;

    ghost pieces = { row_pieces };

    fn write(into: &mut TextWriter, row: &RowId) -> Result<(), NoMemory> {
        write_number(into, row.0)
    }
}

/// The number of an entity.
pub enum EntityText {}

impl Written for EntityText {
    ghost use Rattle.log_write.specs.Pieces.{entity_pieces};

    type Item = EntId;

    ghost pieces = { entity_pieces };

    fn write(into: &mut TextWriter, entity: &EntId) -> Result<(), NoMemory> {
        write_number(into, entity.0)
    }
}

/// The number of a step.
pub enum HintText {}

impl Written for HintText {
    ghost use Rattle.log_write.specs.Pieces.{number_pieces};

    type Item = u32;

    ghost pieces = { number_pieces };

    fn write(into: &mut TextWriter, hint: &u32) -> Result<(), NoMemory> {
        write_number(into, *hint)
    }
}

/// A literal.
pub enum LitText {}

impl Written for LitText {
    ghost use Rattle.log_write.specs.Pieces.{lit_pieces};

    type Item = Lit;

    ghost pieces = { lit_pieces };

    fn write(into: &mut TextWriter, lit: &Lit) -> Result<(), NoMemory> {
        write_lit(into, *lit)
    }
}
