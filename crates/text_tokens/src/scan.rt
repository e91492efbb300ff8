ghost use Rattle.std.specs.Prelude.{◌≡◌, ◌+◌, ◌≤◌, ◌==◌, ◌∷◌, drop, take, length, min, count_by, IfSome, false};
ghost use Rattle.std.specs.List.{prefix_len};
ghost use Rattle.text_tokens.specs.Tokens.{is_blank, is_word_byte, is_symbol_byte, is_before_equals, begins_with, after_gap, string_len_after, token_at, mark_of, unmarked};

use crate::TokenKind;

/// Is this byte white space?
fn blank(byte: u8) -> bool
    ensures { result ≡ is_blank byte }
{
    byte == b' ' || byte == b'\t' || byte == b'\r' || byte == b'\n'
}

/// Can this byte stand in a word?
fn of_word(byte: u8) -> bool
    ensures { result ≡ is_word_byte byte }
{
    (b'0' <= byte && byte <= b'9')
        || (b'A' <= byte && byte <= b'Z')
        || (b'a' <= byte && byte <= b'z')
        || byte == b'_'
}

/// Is this byte a symbol of its own?
fn of_symbol(byte: u8) -> bool
    ensures { result ≡ is_symbol_byte byte }
{
    byte == b';'
        || byte == b','
        || byte == b':'
        || byte == b'('
        || byte == b')'
        || byte == b'.'
        || byte == b'<'
        || byte == b'>'
        || byte == b'='
}

/// Does this byte begin a symbol of two bytes where `=` follows?
fn before_equals(byte: u8) -> bool
    ensures { result ≡ is_before_equals byte }
{
    byte == b'<' || byte == b'>' || byte == b'!'
}

/// Does the text go on with a byte of a word?
fn word_follows(rest: &[u8]) -> bool
    ensures { result ≡ begins_with is_word_byte rest.now }
{
    match rest {
        [byte, ..] => of_word(*byte),
        [] => false,
    }
}

/// Does the text go on with `=`?
fn equals_follows(rest: &[u8]) -> bool
    ensures { result ≡ begins_with (λ x. x == 61) rest.now }
{
    match rest {
        [byte, ..] => *byte == b'=',
        [] => false,
    }
}

/// How many bytes the byte order mark at the front of a text has: none where there is no mark.
pub(crate) fn mark_len(source: &[u8]) -> usize
    ensures within { result ≤ length source.now }
    ensures mark { take result source.now ≡ mark_of source.now }
    ensures rest { drop result source.now ≡ unmarked source.now }
{
    match source {
        [0xEF, 0xBB, 0xBF, ..] => 3,
        _ => 0,
    }
}

/// How many bytes of white space and comments stand at the front of a text.
pub(crate) fn gap_len(rest: &[u8]) -> usize
    ensures within { result ≤ length rest.now }
    ensures gap { drop result rest.now ≡ after_gap false rest.now }
{
    let mut inside = false;
    for (i, byte) in rest.iter().enumerate() {
        if inside {
            inside = *byte != b'\n';
        } else if *byte == b'#' {
            inside = true;
        } else if !blank(*byte) {
            return i;
        }
    }
    rest.len()
}

/// How many bytes of a word stand at the front of a text.
fn word_len(rest: &[u8]) -> usize
    ensures within { result ≤ length rest.now }
    ensures longest { result ≡ prefix_len is_word_byte rest.now }
{
    for (i, byte) in rest.iter().enumerate() {
        if !of_word(*byte) {
            return i;
        }
    }
    rest.len()
}

/// How many bytes a string has after its opening quote, where it is closed.
#[tactic(auto, using(crate::proofs::Quotes::past_quote, crate::proofs::Quotes::past_other))]
fn string_len(rest: &[u8]) -> Option<usize>
    ensures within { IfSome result (λ n. n ≤ length rest.now) }
    ensures closed { result ≡ string_len_after false rest.now }
{
    let mut quoted = false;
    for (i, byte) in rest.iter().enumerate() {
        if *byte == b'"' {
            quoted = !quoted;
        } else if quoted {
            return Some(i);
        }
    }
    if quoted { Some(rest.len()) } else { None }
}

/// The kind of the token that begins with a byte, and how many bytes it has after that one.
pub(crate) fn kind_and_len(first: u8, rest: &[u8]) -> (TokenKind, usize)
    ensures within { result.1 ≤ length rest.now }
    ensures token { token_at first rest.now ≡ (result.0, first ∷ take result.1 rest.now) }
{
    if of_word(first) {
        return (TokenKind::Word, word_len(rest));
    }
    if first == b'-' && word_follows(rest) {
        return (TokenKind::Negative, word_len(rest));
    }
    if first == b'"' {
        return match string_len(rest) {
            Some(len) => (TokenKind::Text, len),
            None => (TokenKind::Fault, rest.len()),
        };
    }
    if before_equals(first) && equals_follows(rest) {
        return (TokenKind::Symbol, 1);
    }
    if of_symbol(first) {
        return (TokenKind::Symbol, 0);
    }
    (TokenKind::Fault, 0)
}

/// The line of the byte after these, where the first of them stands in the given line. The count stops
/// at its last value.
pub(crate) fn line_past(line: u32, passed: &[u8]) -> u32
    ensures { result ≡ min (line + count_by (λ c. c == 10) passed.now) 4294967295 }
{
    let ends = passed.iter().filter(|byte| **byte == b'\n').count();
    if ends < (u32::MAX - line) as usize {
        line + ends as u32
    } else {
        u32::MAX
    }
}
