ghost use Rattle.std.specs.Prelude.{◌≡◌, ◌++◌, [], OnOk};
ghost use Rattle.std.specs.Fmt.{decimal};
ghost use Rattle.trial_documents.specs.Lines;

use crate::cell::{Attribute, Cell};
use currency_base::NoMemory;
use itoa::Buffer;
use std::alloc::Global;
use std::marker::Model;

/// The text of a table, which is written line by line. Contracts see it as the bytes so far.
///
/// After a refusal for want of memory the text is given up: nothing is said of it then.
#[derive(Drop)]
pub(crate) struct Text {
    bytes: Vec<u8>,
}

impl Model for Text {
    ghost use Rattle.std.specs.Prelude.{List, ℕ};

    ghost Value = { List ℕ };

    ghost view = { λ t. t.bytes.items };
}

impl Text {
    /// A text with no byte, which takes no memory yet.
    pub(crate) fn new(alloc: Global) -> Text
        ensures { result ≡ [] }
    {
        Text {
            bytes: Vec::new(alloc),
        }
    }

    /// The bytes so far.
    pub(crate) fn bytes(&self) -> &[u8]
        ensures { result.now ≡ self.now }
    {
        self.bytes.as_slice()
    }

    /// Appends a piece as it is.
    pub(crate) fn push_str(&mut self, piece: &str) -> Result<(), NoMemory>
        ensures { OnOk result (self.new ≡ self.old ++ piece.now) }
    {
        self.bytes.extend_from_slice(piece.as_bytes())?;
        Ok(())
    }

    /// Appends a line with these cells.
    pub(crate) fn push_line(&mut self, cells: &[Cell]) -> Result<(), NoMemory>
        ensures { OnOk result (self.new ≡ self.old ++ Lines.line cells.now) }
    {
        match cells {
            [] => self.push_str("\n"),
            [first, others @ ..] => {
                self.push_cell(*first)?;
                self.push_further_cells(others)?;
                self.push_str("\n")
            }
        }
    }

    /// Appends cells, each after a comma.
    fn push_further_cells(&mut self, cells: &[Cell]) -> Result<(), NoMemory>
        ensures { OnOk result (self.new ≡ self.old ++ Lines.further_cells cells.now) }
    {
        for cell in cells {
            self.push_str(",")?;
            self.push_cell(*cell)?;
        }
        Ok(())
    }

    /// Appends a cell.
    fn push_cell(&mut self, cell: Cell) -> Result<(), NoMemory>
        ensures { OnOk result (self.new ≡ self.old ++ Lines.cell_text cell) }
    {
        match cell {
            Cell::Item { entity, row } => self.push_row("r", entity, row),
            Cell::View { entity, row } => self.push_row("v", entity, row),
            Cell::Entity(entity) => self.push_entity(entity),
            Cell::Number(number) => self.push_number(number),
            Cell::Attribute(Attribute::B) => self.push_str("b"),
            Cell::Attribute(Attribute::C) => self.push_str("c"),
        }
    }

    /// Appends the name of a row, after the letter of its relation.
    fn push_row(&mut self, letter: &str, entity: u32, row: u32) -> Result<(), NoMemory>
        ensures { OnOk result (self.new ≡ self.old ++ Lines.row_name letter.now entity row) }
    {
        self.push_str(letter)?;
        self.push_number(entity)?;
        self.push_str("_")?;
        self.push_number(row)
    }

    /// Appends the name of an entity.
    fn push_entity(&mut self, entity: u32) -> Result<(), NoMemory>
        ensures { OnOk result (self.new ≡ self.old ++ Lines.entity_name entity) }
    {
        self.push_str("e")?;
        self.push_number(entity)
    }

    /// Appends the digits of a number.
    fn push_number(&mut self, number: u32) -> Result<(), NoMemory>
        ensures { OnOk result (self.new ≡ self.old ++ decimal number) }
    {
        let mut buffer = Buffer::new();
        self.push_str(buffer.format(number))
    }
}
