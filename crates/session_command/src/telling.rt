// The texts of what an entry comes to.

ghost use Rattle.std.specs.Prelude.{◌≡◌, ◌≢◌, ◌||◌, ◌∷◌, ◌++◌, codes, IfOk, OnOk, string_bytes};
ghost use Rattle.command_stages.specs.Stages.{bind_trouble};
ghost use Rattle.session_command.specs.Texts.{accepted_text, fault_line, limit_line, refused_front, refused_line, reply_text};
ghost use Rattle.session_command.specs.Texts.{trouble_line};
ghost use Rattle.text_write.specs.Spelling.{value_text};

use bind_faults::BindFault;
use command_stages::{Trouble, bytes_of, of_binding};
use currency_base::{ByteList, ErrorCode, NoMemory, Value};
use session_entries::EntryFault;
use std::alloc::{AllocError, Global};
use text_write::write_value;

/// What is told of an entry, or of entries one after another.
#[derive(Drop)]
pub struct Told {
    pub text: ByteList,
    /// Is a reply among it that the search was cut off?
    pub undecided: bool,
}

/// Appends what is told of one entry more.
pub(crate) fn add(into: &mut Told, one: &Told) -> Result<(), NoMemory>
    ensures text { OnOk result (into.new.text ≡ into.old.text ++ one.now.text) }
    ensures undecided { OnOk result (into.new.undecided ≡ into.old.undecided || one.now.undecided) }
{
    append(&mut into.text, one.text.as_slice())?;
    into.undecided = into.undecided || one.undecided;
    Ok(())
}

/// Appends bytes.
pub(crate) fn append(into: &mut ByteList, bytes: &[u8]) -> Result<(), NoMemory>
    ensures { OnOk result (into.new ≡ into.old ++ bytes.now) }
{
    for byte in bytes {
        into.push(*byte)?;
    }
    Ok(())
}

/// The line of an edit that was done.
pub(crate) fn accepted_text(alloc: Global, line: u32) -> Result<ByteList, NoMemory>
    ensures { IfOk result (λ text. text ≡ accepted_text line) }
{
    let text = format!(in alloc; "edit {line} accepted;\n")?;
    Ok(bytes_of(text))
}

/// The line before a reply.
pub(crate) fn reply_text(alloc: Global, line: u32) -> Result<ByteList, NoMemory>
    ensures { IfOk result (λ text. text ≡ reply_text line) }
{
    let text = format!(in alloc; "reply {line};\n")?;
    Ok(bytes_of(text))
}

// ---- refusals

/// The line of a limit.
pub(crate) fn limit_line(alloc: Global, limit: u8, line: u32) -> Result<ByteList, NoMemory>
    ensures { IfOk result (λ text. text ≡ limit_line limit line) }
{
    let line = format!(in alloc; " {line};\n")?;
    let mut text = format!(in alloc; "refused limit {limit}")?;
    text.push_str(line.as_str())?;
    Ok(bytes_of(text))
}

/// The code of a fault, the document and the line in it.
fn refused_front(alloc: Global, code: &str, document: &str, line: u32) -> Result<String, AllocError>
    ensures { IfOk result (λ text. string_bytes text ≡ refused_front code.now document.now line) }
{
    let line = format!(in alloc; " {line}")?;
    let mut text = String::from_str(alloc, "refused ")?;
    text.push_str(code)?;
    text.push_str(" ")?;
    text.push_str(document)?;
    text.push_str(line.as_str())?;
    Ok(text)
}

/// The same as a line.
fn refused_line(alloc: Global, code: &str, document: &str, line: u32) -> Result<ByteList, NoMemory>
    ensures { IfOk result (λ text. text ≡ refused_line code.now document.now line) }
{
    let mut text = refused_front(alloc, code, document, line)?;
    text.push_str(";\n")?;
    Ok(bytes_of(text))
}

/// The line of a row that differs from the one that it is copied from.
fn difference_line(
    alloc: Global,
    document: &str,
    line: u32,
    target: &Value,
    source: &Value,
) -> Result<ByteList, NoMemory>
    ensures { IfOk result (λ text. text ≡ refused_front (codes "E13") document.now line
        ++ 32 ∷ value_text target.now ++ 32 ∷ value_text source.now ++ codes ";\n") }
{
    let front = refused_front(alloc, ErrorCode::CopyDiffers.text(), document, line)?;
    let mut text = bytes_of(front);
    text.push(b' ')?;
    write_value(&mut text, target)?;
    text.push(b' ')?;
    write_value(&mut text, source)?;
    text.push(b';')?;
    text.push(b'\n')?;
    Ok(text)
}

/// The line of a refusal of an entry that stands at this line. What the entry does not determine has no byte.
pub(crate) fn trouble_line(
    alloc: Global,
    entry: u32,
    trouble: &Trouble,
) -> Result<ByteList, NoMemory>
    ensures { IfOk result (λ text. text ≡ trouble_line entry trouble.now) }
{
    match trouble {
        Trouble::Refused {
            code,
            document,
            line,
        } => refused_line(alloc, code.text(), document.text(), *line),
        Trouble::CopyDiffers {
            document,
            line,
            target,
            source,
        } => difference_line(alloc, document.text(), *line, target, source),
        Trouble::Limit(limit) => limit_line(alloc, *limit, entry),
        Trouble::Words => Ok(ByteList::new(alloc)),
        Trouble::Unshown { .. } => Ok(ByteList::new(alloc)),
        Trouble::ReadFault(_) => Ok(ByteList::new(alloc)),
        Trouble::NoMemory => Ok(ByteList::new(alloc)),
    }
}

/// The line of a refused edit of the script of this name, whose entry stands at this line. For want of memory there is none.
pub(crate) fn fault_line(
    alloc: Global,
    script: &str,
    entry: u32,
    fault: EntryFault,
) -> Result<ByteList, NoMemory>
    ensures line { IfOk result (λ text. text ≡ fault_line script.now entry fault) }
    ensures memory { IfOk result (λ text. fault ≢ EntryFault.Bind BindFault.NoMemory) }
{
    match fault {
        EntryFault::Bind(fault) => bind_line(alloc, script, entry, fault),
        EntryFault::NotThere => refused_line(alloc, "E17", script, entry),
    }
}

/// The line of a fault of binding an edit.
fn bind_line(
    alloc: Global,
    script: &str,
    entry: u32,
    fault: BindFault,
) -> Result<ByteList, NoMemory>
    ensures line { IfOk result (λ text. text ≡ trouble_line entry (bind_trouble script.now fault)) }
    ensures memory { IfOk result (λ text. fault ≢ BindFault.NoMemory) }
{
    match of_binding(alloc, script, fault) {
        Trouble::NoMemory => Err(NoMemory),
        trouble => trouble_line(alloc, entry, &trouble),
    }
}
