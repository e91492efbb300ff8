ghost use Rattle.std.specs.Prelude.{◌≡◌, [], ◌∷◌, ◌++◌, OnOk};
ghost use Rattle.std.specs.List.{list_all};
ghost use Rattle.text_tokens.specs.Tokens.{is_word_byte};
ghost use Rattle.text_grammar.specs.Words;
ghost use Rattle.text_write.specs.Spelling.{doubled, int_piece, is_plain, name_text, quote, value_text};

use currency_base::{ByteList, Name, NoMemory, Value};
use itoa::Buffer;

/// Appends the canonical spelling of a name: the name itself where it is a word that is not reserved, else a
/// string. After a refusal a front of it may have been appended.
#[tactic(auto, unfolding(crate::specs::Spelling::name_piece))]
pub fn write_name(into: &mut ByteList, name: &Name) -> Result<(), NoMemory>
    ensures { OnOk result (into.new ≡ into.old ++ name_text name.now) }
{
    let bytes = name.bytes();
    if is_plain(bytes) {
        append(into, bytes)
    } else {
        write_string(into, bytes)
    }
}

/// Appends the canonical spelling of a value: a text as a string, and a number by its digits. After a refusal
/// a front of it may have been appended.
#[tactic(auto, unfolding(crate::specs::Spelling::value_piece))]
pub fn write_value(into: &mut ByteList, value: &Value) -> Result<(), NoMemory>
    ensures { OnOk result (into.new ≡ into.old ++ value_text value.now) }
{
    match value {
        Value::Text(text) => write_string(into, text.bytes()),
        Value::Int(number) => write_int(into, *number),
    }
}

/// Are the bytes a word that may be a name?
pub(crate) fn is_plain(bytes: &[u8]) -> bool
    ensures { result ≡ is_plain bytes.now }
{
    !bytes.is_empty() && is_word(bytes) && !is_reserved(bytes)
}

/// Appends the bytes as a string, in quotes.
pub(crate) fn write_string(into: &mut ByteList, bytes: &[u8]) -> Result<(), NoMemory>
    ensures { OnOk result (into.new ≡ into.old ++ quote bytes.now) }
{
    into.push(b'"')?;
    write_doubled(into, bytes)?;
    into.push(b'"')
}

/// Can all bytes stand in a word?
fn is_word(bytes: &[u8]) -> bool
    ensures { result ≡ list_all is_word_byte bytes.now }
{
    bytes.iter().all(|byte| of_word(*byte))
}

/// Can this byte stand in a word?
fn of_word(byte: u8) -> bool
    ensures { result ≡ is_word_byte byte }
{
    (b'0' <= byte && byte <= b'9')
        || (b'A' <= byte && byte <= b'Z')
        || (b'a' <= byte && byte <= b'z')
        || byte == b'_'
}

/// Is the word one of those that are no names?
fn is_reserved(word: &[u8]) -> bool
    ensures { result ≡ Words.is_reserved word.now }
{
    word == b"if".as_slice() || word == b"false".as_slice() || word == b"orders".as_slice()
}

/// Appends bytes as they are.
fn append(into: &mut ByteList, bytes: &[u8]) -> Result<(), NoMemory>
    ensures { OnOk result (into.new ≡ into.old ++ bytes.now) }
{
    for byte in bytes {
        into.push(*byte)?;
    }
    Ok(())
}

/// Appends bytes with each quote written twice.
fn write_doubled(into: &mut ByteList, bytes: &[u8]) -> Result<(), NoMemory>
    ensures { OnOk result (into.new ≡ into.old ++ doubled bytes.now) }
{
    for byte in bytes {
        push_doubled(into, *byte)?;
    }
    Ok(())
}

/// Appends a byte, and a quote twice.
fn push_doubled(into: &mut ByteList, byte: u8) -> Result<(), NoMemory>
    ensures { OnOk result (into.new ≡ into.old ++ doubled (byte ∷ [])) }
{
    if byte == b'"' {
        into.push(byte)?;
    }
    into.push(byte)
}

/// Appends the digits of a number, after a minus where it is below 0.
fn write_int(into: &mut ByteList, number: i64) -> Result<(), NoMemory>
    ensures { OnOk result (into.new ≡ into.old ++ (int_piece number).text) }
{
    let mut buffer = Buffer::new();
    append(into, buffer.format(number).as_bytes())
}
