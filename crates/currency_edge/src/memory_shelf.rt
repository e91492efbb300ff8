ghost use Rattle.std.specs.Prelude.{◌≡◌, ◌≤◌, ◌<◌, ◌+◌, ◌++◌, ◌∷◌, ◌↔◌, ℕ, List, [], length, take, vec_len, None, Some, Err, IsTrue, OnOk, OnErr, IsErrOf};
ghost use Rattle.currency_edge.specs.Fault.{Rose, one_more};
ghost use Rattle.currency_edge.specs.Shelf.{document};
ghost use Rattle.currency_edge.specs.States.{after_read, fails_next};

use crate::document::{Document, DocumentList, copy_within, find};
use crate::{Shelf, ShelfFault};
use currency_base::NoMemory;
use std::alloc::Global;
use std::marker::Model;

/// Documents in memory, on a shelf that can be made to fail.
///
/// Contracts see its documents as pairs of a name and bytes, how many reads were made, which read is
/// to fail, and the count of faults.
#[derive(Drop)]
pub struct MemoryShelf {
    alloc: Global,
    documents: DocumentList,
    reads: u64,
    failing: Option<u64>,
    faults: u64,
}

impl Model for MemoryShelf {
    ghost use Rattle.currency_edge.specs.States.{ShelfState};

    ghost Value = { ShelfState };

    ghost view = { λ s. record {
      documents = s.documents;
      reads = s.reads;
      failing = s.failing;
      faults = s.faults;
    } };
}

impl MemoryShelf {
    /// A shelf with no document, no read made, no read that is to fail, and no fault.
    pub fn new(alloc: Global) -> MemoryShelf
        ensures { result ≡ record { documents = []; reads = 0; failing = None; faults = 0 } }
    {
        MemoryShelf {
            alloc,
            documents: DocumentList::new(alloc),
            reads: 0,
            failing: None,
            faults: 0,
        }
    }

    /// Puts a copy of a document after the others. A refused one changes nothing.
    pub fn put(&mut self, name: &str, bytes: &[u8]) -> Result<(), NoMemory>
        ensures ok { OnOk result (self.new ≡ record self.old {
          documents = self.old.documents ++ (name.now, bytes.now) ∷ [];
        }) }
        ensures err { OnErr result (self.new ≡ self.old) }
    {
        let document = Document::new(self.alloc, name, bytes)?;
        self.documents.push(document)
    }

    /// Lets one read fail, counted from 1 over the shelf's life. A later call takes the place of an
    /// earlier one.
    pub fn fail_at(&mut self, call: u64)
        ensures { self.new ≡ record self.old { failing = Some call } }
    {
        self.failing = Some(call);
    }

    // Counts a fault and answers it.
    fn fail(&mut self) -> Result<(), ShelfFault>
        ensures count { self.new ≡ record self.old { faults = one_more self.old.faults } }
        ensures later { self.old.faults ≤ self.new.faults }
        ensures fault { result ≡ Err ShelfFault.Failed }
    {
        self.faults = self.faults.saturating_add(1);
        Err(ShelfFault::Failed)
    }
}

impl Shelf for MemoryShelf {
    ghost texts = { λ s. Some s.documents };

    ghost faults = { λ s. s.faults };

    /// Reads a document. It fails where this is the read that is to fail, and where no document has
    /// the name.
    fn read(
        &mut self,
        _alloc: Global,
        name: &str,
        at_most: usize,
        into: &mut Vec<u8>,
    ) -> Result<(), ShelfFault>
        requires { into.old.items ≡ [] }
        ensures kept { self.new.documents ≡ self.old.documents }
        ensures later { self.old.faults ≤ self.new.faults }
        ensures counted { self.new ≡ after_read self.old name.now }
        ensures failed { IsErrOf result ShelfFault.Failed ↔ IsTrue (fails_next self.old name.now) }
        ensures rose { IsErrOf result ShelfFault.Failed → Rose self.old.faults self.new.faults }
        ensures within { OnOk result (vec_len into.new ≤ at_most) }
        ensures whole { OnOk result (into.new.items ≡ document self.old.documents name.now) }
        ensures filled { IsErrOf result ShelfFault.TooLong → vec_len into.new ≡ at_most + 1 }
        ensures front { IsErrOf result ShelfFault.TooLong →
            into.new.items ≡ take (at_most + 1) (document self.old.documents name.now) }
        ensures longer { IsErrOf result ShelfFault.TooLong →
            at_most < length (document self.old.documents name.now) }
    {
        self.reads = self.reads.saturating_add(1);
        if self.failing == Some(self.reads) {
            return self.fail();
        }
        match find(self.documents.as_slice(), name) {
            Some(bytes) => copy_within(bytes, at_most, into),
            None => self.fail(),
        }
    }
}
