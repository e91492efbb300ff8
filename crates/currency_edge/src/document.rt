ghost use Rattle.std.specs.Prelude.{◌≡◌, ◌≤◌, ◌<◌, ◌+◌, [], true, false, length, take, vec_len, OnOk, IfOk, IsErrOf, MatchOption};
ghost use Rattle.currency_edge.specs.Shelf.{document, has_name};

use crate::ShelfFault;
use currency_base::{ItemList, Name, NoMemory};
use std::alloc::Global;
use std::marker::Model;

/// A document in memory. Contracts see it as the pair of its name and its bytes.
#[derive(Drop)]
pub struct Document {
    name: Name,
    bytes: Vec<u8>,
}

impl Model for Document {
    ghost use Rattle.std.specs.Prelude.{List, ℕ};

    ghost Value = { List ℕ × List ℕ };

    ghost view = { λ d. (d.name, d.bytes.items) };
}

impl Document {
    /// The document of this name and these bytes, both copied.
    pub fn new(alloc: Global, name: &str, bytes: &[u8]) -> Result<Document, NoMemory>
        ensures { IfOk result (λ d. d ≡ (name.now, bytes.now)) }
    {
        Ok(Document {
            name: Name::from_bytes(alloc, name.as_bytes())?,
            bytes: Vec::from_slice(alloc, bytes)?,
        })
    }
}

/// Documents in the order in which they were put.
pub type DocumentList = ItemList<Document>;

/// The bytes of the first document of a name, if there is one.
pub fn find<'a>(documents: &'a [Document], name: &str) -> Option<&'a [u8]>
    ensures { MatchOption result
        ((has_name documents.now name.now ≡ false) × (document documents.now name.now ≡ []))
        (λ bytes. (has_name documents.now name.now ≡ true)
        × (bytes.now ≡ document documents.now name.now)) }
{
    for held in documents {
        if held.name.text() == name {
            return Some(held.bytes.as_slice());
        }
    }
    None
}

/// Copies a document into an empty buffer, or its first `at_most + 1` bytes where it is longer.
pub fn copy_within(bytes: &[u8], at_most: usize, into: &mut Vec<u8>) -> Result<(), ShelfFault>
    requires { into.old.items ≡ [] }
    ensures within { OnOk result (length bytes.now ≤ at_most) }
    ensures whole { OnOk result (into.new.items ≡ bytes.now) }
    ensures longer { IsErrOf result ShelfFault.TooLong → at_most < length bytes.now }
    ensures front { IsErrOf result ShelfFault.TooLong →
        into.new.items ≡ take (at_most + 1) bytes.now }
    ensures steady { ¬ (IsErrOf result ShelfFault.Failed) }
{
    let is_longer = bytes.len() > at_most;
    let copied = if is_longer {
        &bytes[..at_most + 1]
    } else {
        bytes
    };
    if into.extend_from_slice(copied).is_err() {
        return Err(ShelfFault::NoMemory);
    }
    if is_longer {
        Err(ShelfFault::TooLong)
    } else {
        Ok(())
    }
}
