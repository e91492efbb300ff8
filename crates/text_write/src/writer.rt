ghost use Rattle.std.specs.Prelude.{◌≡◌, OnErr, OnOk};
ghost use Rattle.text_write.specs.Pieces.{symbol_piece, word_piece};
ghost use Rattle.text_write.specs.Spacing.{start, writes};
ghost use Rattle.text_write.specs.Spelling.{int_piece, name_piece, string_piece, value_piece};

use crate::spacing::{append_spaced, ends_line, is_spaced, wants_blank};
use crate::spelling::{is_plain, write_string};
use currency_base::{ByteList, Name, NoMemory, Value};
use itoa::Buffer;
use std::alloc::Global;
use std::marker::Model;
use text_tokens::TokenKind;

/// Writes a text piece by piece, in the canonical spacing. Contracts see it as the text so far, and whether a
/// blank follows it.
///
/// After a refusal for want of memory the writer is given up: nothing is said of its text then. The time is
/// linear in the text, and beside the text it holds one bool.
#[derive(Drop)]
pub struct TextWriter {
    alloc: Global,
    text: Vec<u8>,
    // Does a blank follow the last piece, unless none precedes the next one?
    spaced: bool,
}

impl Model for TextWriter {
    ghost use Rattle.text_write.specs.Spacing.{Writing};

    ghost Value = { Writing };

    ghost view = { λ w. record { text = w.text.items; spaced = w.spaced } };
}

impl TextWriter {
    /// A writer with no piece, which takes no memory yet.
    pub fn new(alloc: Global) -> TextWriter
        ensures { result ≡ start }
    {
        TextWriter {
            alloc,
            text: Vec::new(alloc),
            spaced: false,
        }
    }

    /// Writes a word as it is: a fixed word of a grammar, or a variable.
    pub fn word(&mut self, text: &str) -> Result<(), NoMemory>
        ensures { OnOk result (self.new ≡ writes self.old (word_piece text.now)) }
    {
        self.put(TokenKind::Word, text.as_bytes())
    }

    /// Writes a symbol.
    pub fn symbol(&mut self, text: &str) -> Result<(), NoMemory>
        ensures { OnOk result (self.new ≡ writes self.old (symbol_piece text.now)) }
    {
        self.put(TokenKind::Symbol, text.as_bytes())
    }

    /// Writes a name in its canonical spelling.
    #[tactic(auto, unfolding(crate::specs::Spelling::name_piece))]
    pub fn name(&mut self, name: &Name) -> Result<(), NoMemory>
        ensures { OnOk result (self.new ≡ writes self.old (name_piece name.now)) }
    {
        if is_plain(name.bytes()) {
            self.put(TokenKind::Word, name.bytes())
        } else {
            self.string(name)
        }
    }

    /// Writes a name as a string, as the names of documents are written.
    pub fn string(&mut self, name: &Name) -> Result<(), NoMemory>
        ensures { OnOk result (self.new ≡ writes self.old (string_piece name.now)) }
    {
        let mut text = ByteList::new(self.alloc);
        write_string(&mut text, name.bytes())?;
        self.put(TokenKind::Text, text.as_slice())
    }

    /// Writes a value in its canonical spelling.
    #[tactic(auto, unfolding(crate::specs::Spelling::value_piece))]
    pub fn value(&mut self, value: &Value) -> Result<(), NoMemory>
        ensures { OnOk result (self.new ≡ writes self.old (value_piece value.now)) }
    {
        match value {
            Value::Text(text) => self.string(text),
            Value::Int(number) => self.int(*number),
        }
    }

    /// The text that was written.
    pub fn into_text(self) -> ByteList
        ensures { result ≡ self.text }
    {
        ByteList::from_items(self.text)
    }

    /// Writes a number.
    fn int(&mut self, number: i64) -> Result<(), NoMemory>
        ensures { OnOk result (self.new ≡ writes self.old (int_piece number)) }
    {
        let kind = if number < 0 {
            TokenKind::Negative
        } else {
            TokenKind::Word
        };
        let mut buffer = Buffer::new();
        self.put(kind, buffer.format(number).as_bytes())
    }

    /// Writes a piece, or leaves all as it was.
    #[tactic(auto, unfolding(crate::specs::Spacing::writes))]
    fn put(&mut self, kind: TokenKind, text: &[u8]) -> Result<(), NoMemory>
        ensures ok { OnOk result (self.new ≡ writes self.old (record { kind = kind; text = text.now })) }
        ensures err { OnErr result (self.new ≡ self.old) }
    {
        let end = self.text.len();
        let blank = wants_blank(self.spaced, kind, text);
        let line_end = ends_line(kind, text);
        match append_spaced(&mut self.text, blank, text, line_end) {
            Ok(()) => {
                self.spaced = is_spaced(kind, text);
                Ok(())
            }
            Err(NoMemory) => {
                self.text.truncate(end);
                Err(NoMemory)
            }
        }
    }
}
