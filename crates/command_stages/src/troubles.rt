ghost use Rattle.std.specs.Prelude.{◌≡◌, ◌≢◌, ◌⊎◌, unwrap_or};
ghost use Rattle.command_stages.specs.Stages.{text_trouble, bind_trouble};

use crate::Trouble;
use bind_faults::{BindFault, Refusal};
use currency_base::{ErrorCode, Name, Value};
use std::alloc::Global;
use text_tokens::TextFault;

/// The refusal of a document that the words name.
pub fn refused(alloc: Global, code: ErrorCode, name: &str, line: u32) -> Trouble
    ensures due { (result ≡ Trouble.NoMemory) ⊎ (result ≡ Trouble.Refused code name.now line) }
    ensures not_words { result ≢ Trouble.Words }
{
    match Name::from_bytes(alloc, name.as_bytes()) {
        Ok(document) => Trouble::Refused {
            code,
            document,
            line,
        },
        Err(_) => Trouble::NoMemory,
    }
}

/// The trouble that a fault of a document's text is.
pub fn of_text(alloc: Global, name: &str, fault: TextFault) -> Trouble
    ensures due { (result ≡ Trouble.NoMemory) ⊎ (result ≡ text_trouble name.now fault) }
    ensures not_words { result ≢ Trouble.Words }
{
    match fault {
        TextFault::NotUtf8 { line } => refused(alloc, ErrorCode::NotUtf8, name, line),
        TextFault::Syntax { line } => refused(alloc, ErrorCode::Syntax, name, line),
        TextFault::NoMemory => Trouble::NoMemory,
    }
}

// The refusal of a table, or of the text that the words name.
fn of_refusal(alloc: Global, name: &str, refusal: Refusal) -> Trouble
    ensures due { (result ≡ Trouble.NoMemory)
        ⊎ (result ≡ Trouble.Refused refusal.code (unwrap_or refusal.document name.now) refusal.line) }
    ensures not_words { result ≢ Trouble.Words }
{
    let Refusal {
        code,
        document,
        line,
    } = refusal;
    match document {
        None => refused(alloc, code, name, line),
        Some(document) => Trouble::Refused {
            code,
            document,
            line,
        },
    }
}

// The trouble that a row differs from its source, at a line of a table or of the text that the words name.
fn of_difference(
    alloc: Global,
    name: &str,
    document: Option<Name>,
    line: u32,
    target: Value,
    source: Value,
) -> Trouble
    ensures due { (result ≡ Trouble.NoMemory)
        ⊎ (result ≡ Trouble.CopyDiffers (unwrap_or document name.now) line target source) }
    ensures not_words { result ≢ Trouble.Words }
{
    let document = match document {
        Some(document) => document,
        None => match Name::from_bytes(alloc, name.as_bytes()) {
            Ok(document) => document,
            Err(_) => return Trouble::NoMemory,
        },
    };
    Trouble::CopyDiffers {
        document,
        line,
        target,
        source,
    }
}

/// The trouble that a fault of binding a specification or a question is; where it names no table it is in the text.
pub fn of_binding(alloc: Global, name: &str, fault: BindFault) -> Trouble
    ensures due { (result ≡ Trouble.NoMemory) ⊎ (result ≡ bind_trouble name.now fault) }
    ensures not_words { result ≢ Trouble.Words }
{
    match fault {
        BindFault::Refused(refusal) => of_refusal(alloc, name, refusal),
        BindFault::CopyDiffers {
            document,
            line,
            target,
            source,
        } => of_difference(alloc, name, document, line, target, source),
        BindFault::Limit(limit) => Trouble::Limit(limit),
        BindFault::ReadFault(document) => Trouble::ReadFault(document),
        BindFault::NoMemory => Trouble::NoMemory,
    }
}
