ghost use Rattle.std.specs.Prelude.{◌≡◌, ◌≤◌, ◌<◌, ◌+◌, ◌++◌, ◌∷◌, ℕ, List, [], length, take, vec_len, Some, OnOk, OnErr, IsErrOf};
ghost use Rattle.currency_edge.specs.Shelf.{document};

use crate::document::{Document, DocumentList, copy_within, find};
use crate::{Shelf, ShelfFault};
use currency_base::NoMemory;
use std::alloc::Global;
use std::marker::Model;

/// Documents in memory, on a shelf that never fails. Contracts see it as the list of its documents,
/// each a pair of a name and bytes.
#[derive(Drop)]
pub struct SteadyShelf {
    alloc: Global,
    documents: DocumentList,
}

impl Model for SteadyShelf {
    ghost use Rattle.std.specs.Prelude.{List, ℕ};

    ghost Value = { List (List ℕ × List ℕ) };

    ghost view = { λ s. s.documents };
}

impl SteadyShelf {
    /// A shelf with no document.
    pub fn new(alloc: Global) -> SteadyShelf
        ensures { result ≡ [] }
    {
        SteadyShelf {
            alloc,
            documents: DocumentList::new(alloc),
        }
    }

    /// Puts a copy of a document after the others. A refused one changes nothing.
    pub fn put(&mut self, name: &str, bytes: &[u8]) -> Result<(), NoMemory>
        ensures ok { OnOk result (self.new ≡ self.old ++ (name.now, bytes.now) ∷ []) }
        ensures err { OnErr result (self.new ≡ self.old) }
    {
        let document = Document::new(self.alloc, name, bytes)?;
        self.documents.push(document)
    }
}

impl Shelf for SteadyShelf {
    ghost texts = { λ s. Some s };

    ghost faults = { λ _. 0 };

    /// Reads a document; one that is not there has no bytes.
    fn read(
        &mut self,
        _alloc: Global,
        name: &str,
        at_most: usize,
        into: &mut Vec<u8>,
    ) -> Result<(), ShelfFault>
        requires { into.old.items ≡ [] }
        ensures kept { self.new ≡ self.old }
        ensures within { OnOk result (vec_len into.new ≤ at_most) }
        ensures whole { OnOk result (into.new.items ≡ document self.old name.now) }
        ensures steady { ¬ (IsErrOf result ShelfFault.Failed) }
        ensures filled { IsErrOf result ShelfFault.TooLong → vec_len into.new ≡ at_most + 1 }
        ensures front { IsErrOf result ShelfFault.TooLong →
            into.new.items ≡ take (at_most + 1) (document self.old name.now) }
        ensures longer { IsErrOf result ShelfFault.TooLong →
            at_most < length (document self.old name.now) }
    {
        match find(self.documents.as_slice(), name) {
            Some(bytes) => copy_within(bytes, at_most, into),
            None => Ok(()),
        }
    }
}
