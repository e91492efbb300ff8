ghost use Rattle.std.specs.Prelude.{◌≡◌, ◌&&◌, ◌++◌, ◌∷◌, [], length, not, take, if◌then◌else◌, OnErr, OnOk};
ghost use Rattle.text_write.specs.Pieces;
ghost use Rattle.text_write.specs.Spacing;

use currency_base::NoMemory;
use text_tokens::TokenKind;

/// Does this piece end a line?
pub(crate) fn ends_line(kind: TokenKind, text: &[u8]) -> bool
    ensures { result ≡ Pieces.ends_line (record { kind = kind; text = text.now }) }
{
    is_the_symbol(kind, text, b";")
}

/// Does a blank precede this piece, where it follows pieces that want one?
pub(crate) fn wants_blank(spaced: bool, kind: TokenKind, text: &[u8]) -> bool
    ensures { result ≡ spaced && not (Pieces.is_tight_before (record { kind = kind; text = text.now })) }
{
    spaced && !is_tight_before(kind, text)
}

/// Does a blank follow this piece, unless none precedes the next one?
pub(crate) fn is_spaced(kind: TokenKind, text: &[u8]) -> bool
    ensures { result ≡ Spacing.is_spaced (record { kind = kind; text = text.now }) }
{
    !ends_line(kind, text) && !is_tight_after(kind, text)
}

/// Does no blank follow this piece?
fn is_tight_after(kind: TokenKind, text: &[u8]) -> bool
    ensures { result ≡ Pieces.is_tight_after (record { kind = kind; text = text.now }) }
{
    is_the_symbol(kind, text, b"(") || is_the_symbol(kind, text, b".")
}

/// Does no blank precede this piece?
fn is_tight_before(kind: TokenKind, text: &[u8]) -> bool
    ensures { result ≡ Pieces.is_tight_before (record { kind = kind; text = text.now }) }
{
    is_the_symbol(kind, text, b";")
        || is_the_symbol(kind, text, b",")
        || is_the_symbol(kind, text, b":")
        || is_the_symbol(kind, text, b")")
        || is_the_symbol(kind, text, b".")
}

/// Is the piece this very symbol?
fn is_the_symbol(kind: TokenKind, text: &[u8], symbol: &[u8]) -> bool
    ensures { result ≡ Pieces.is_the_symbol symbol.now (record { kind = kind; text = text.now }) }
{
    kind == TokenKind::Symbol && text == symbol
}

/// Appends a piece's bytes, after a blank and before the end of a line where these are wanted.
pub(crate) fn append_spaced(
    into: &mut Vec<u8>,
    blank: bool,
    text: &[u8],
    line_end: bool,
) -> Result<(), NoMemory>
    ensures ok { OnOk result (into.new.items
        ≡ into.old.items ++ (if blank then 32 ∷ [] else []) ++ text.now ++ (if line_end then 10 ∷ [] else [])) }
    ensures err { OnErr result (take (length into.old.items) into.new.items ≡ into.old.items) }
{
    push_where(into, blank, b' ')?;
    append(into, text)?;
    push_where(into, line_end, b'\n')
}

/// Appends a byte where it is wanted.
fn push_where(into: &mut Vec<u8>, wanted: bool, byte: u8) -> Result<(), NoMemory>
    ensures ok { OnOk result (into.new.items ≡ into.old.items ++ (if wanted then byte ∷ [] else [])) }
    ensures err { OnErr result (into.new.items ≡ into.old.items) }
{
    if !wanted {
        return Ok(());
    }
    match into.push(byte) {
        Ok(()) => Ok(()),
        Err(_) => Err(NoMemory),
    }
}

/// Appends bytes.
fn append(into: &mut Vec<u8>, bytes: &[u8]) -> Result<(), NoMemory>
    ensures ok { OnOk result (into.new.items ≡ into.old.items ++ bytes.now) }
    ensures err { OnErr result (into.new.items ≡ into.old.items) }
{
    match into.extend_from_slice(bytes) {
        Ok(()) => Ok(()),
        Err(_) => Err(NoMemory),
    }
}
