ghost use Rattle.std.specs.Prelude.{◌≡◌, IfOk, string_bytes};
ghost use Rattle.command_stages.specs.Texts.{check_text, error_text, document_front, document_text, difference_text, trouble_status, trouble_text};

use crate::{Check, Trouble};
use currency_base::{ByteList, ErrorCode, Name, NoMemory, Value};
use std::alloc::{AllocError, Global};
use text_write::write_value;

impl Check {
    // The refusal of a report that fails the check.
    fn text(&self) -> &'static str
        ensures { result.now ≡ check_text self.now }
    {
        match self {
            Check::V1 => "refused V1",
            Check::V2 => "refused V2",
            Check::V3 => "refused V3",
        }
    }
}

// What is said of a document, its name and a line in it.
fn document_front(
    alloc: Global,
    said: &str,
    document: &Name,
    line: u32,
) -> Result<String, AllocError>
    ensures { IfOk result (λ text. string_bytes text ≡ document_front said.now document.now line) }
{
    let line = format!(in alloc; " {line}")?;
    let mut text = String::from_str(alloc, said)?;
    text.push_str(" ")?;
    text.push_str(document.text())?;
    text.push_str(line.as_str())?;
    Ok(text)
}

// The same as a line.
fn document_line(
    alloc: Global,
    said: &str,
    document: &Name,
    line: u32,
) -> Result<String, AllocError>
    ensures { IfOk result (λ text. string_bytes text ≡ document_text said.now document.now line) }
{
    let mut text = document_front(alloc, said, document, line)?;
    text.push_str("\n")?;
    Ok(text)
}

// The fault of a document.
fn error_of(alloc: Global, code: ErrorCode) -> Result<String, AllocError>
    ensures { IfOk result (λ text. string_bytes text ≡ error_text code) }
{
    let code = code.text();
    format!(in alloc; "error {code}")
}

/// The bytes of a text.
pub fn bytes_of(text: String) -> ByteList
    ensures { result ≡ string_bytes text }
{
    ByteList::from_items(text.into_bytes())
}

// The fault of a row that differs from the one that it is copied from.
fn difference_line(
    alloc: Global,
    document: &Name,
    line: u32,
    target: &Value,
    source: &Value,
) -> Result<ByteList, NoMemory>
    ensures { IfOk result (λ text. text ≡ difference_text document.now line target.now source.now) }
{
    let said = error_of(alloc, ErrorCode::CopyDiffers)?;
    let front = document_front(alloc, said.as_str(), document, line)?;
    let mut text = bytes_of(front);
    text.push(b' ')?;
    write_value(&mut text, target)?;
    text.push(b' ')?;
    write_value(&mut text, source)?;
    text.push(b'\n')?;
    Ok(text)
}

// The line of a refusal of a document, with the code.
fn refusal_line(
    alloc: Global,
    code: ErrorCode,
    document: &Name,
    line: u32,
) -> Result<String, AllocError>
    ensures { IfOk result (λ text. string_bytes text ≡ document_text (error_text code) document.now line) }
{
    let said = error_of(alloc, code)?;
    document_line(alloc, said.as_str(), document, line)
}

// The document that could not be read.
fn unread_line(alloc: Global, document: &Name) -> Result<String, AllocError>
    ensures { IfOk result (λ text. string_bytes text ≡ trouble_text (Trouble.ReadFault document.now)) }
{
    let document = document.text();
    format!(in alloc; "read fault {document}\n")
}

impl Trouble {
    /// The exit status, once the text is written.
    pub fn status(&self) -> u8
        ensures { result ≡ trouble_status self.now }
    {
        match self {
            Trouble::Words => 2,
            Trouble::Unshown { .. } => 4,
            Trouble::Refused { .. } => 5,
            Trouble::CopyDiffers { .. } => 5,
            Trouble::Limit(_) => 6,
            Trouble::ReadFault(_) => 7,
            Trouble::NoMemory => 9,
        }
    }
}

/// The line of a refusal. For want of memory it has no byte.
pub fn text_of(alloc: Global, trouble: &Trouble) -> Result<ByteList, NoMemory>
    ensures { IfOk result (λ text. text ≡ trouble_text trouble.now) }
{
    let text = match trouble {
        Trouble::Words => String::from_str(alloc, "words refused\n")?,
        Trouble::Unshown {
            check,
            document,
            line,
        } => document_line(alloc, check.text(), document, *line)?,
        Trouble::Refused {
            code,
            document,
            line,
        } => refusal_line(alloc, *code, document, *line)?,
        Trouble::CopyDiffers {
            document,
            line,
            target,
            source,
        } => return difference_line(alloc, document, *line, target, source),
        Trouble::Limit(limit) => format!(in alloc; "limit {limit}\n")?,
        Trouble::ReadFault(document) => unread_line(alloc, document)?,
        Trouble::NoMemory => String::new(alloc),
    };
    Ok(bytes_of(text))
}
