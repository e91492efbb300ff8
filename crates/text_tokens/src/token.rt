use currency_base::ItemList;

/// What a token is, as the languages' grammars name it.
#[derive(Clone, Copy, PartialEq, Eq)]
pub enum TokenKind {
    /// A longest run of ASCII letters, digits and `_`.
    Word,
    /// `-` and a longest run of the same bytes, at least one.
    Negative,
    /// A string, its quotes included.
    Text,
    /// One of `;` `,` `:` `(` `)` `.` `<=` `>=` `!=` `<` `>` `=`, the longest that fits.
    Symbol,
    /// Bytes that begin no token, which no grammar allows.
    Fault,
}

/// A token of a text: its kind, its bytes, the place of the first of them and the line of that place.
/// Lines are counted from 1, and the count stops at its last value.
#[derive(Clone, Copy)]
pub struct Token<'a> {
    pub kind: TokenKind,
    pub text: &'a [u8],
    pub start: usize,
    pub line: u32,
}

/// The tokens of a text, in order.
pub type TokenList<'a> = ItemList<Token<'a>>;

/// Why a text is not read.
#[derive(Clone, Copy, Debug, PartialEq, Eq)]
pub enum TextFault {
    /// The text is not UTF-8. The line is that of the first byte that is wrong.
    NotUtf8 { line: u32 },
    /// The line is that of the first token at which no text of the grammar can go on.
    Syntax { line: u32 },
    /// Want of memory.
    NoMemory,
}
