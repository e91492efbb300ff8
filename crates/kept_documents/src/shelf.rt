ghost use Rattle.std.specs.Prelude.{◌≡◌, IfSome};
ghost use Rattle.currency_edge.specs.Shelf.{document};
ghost use Rattle.kept_documents.specs.Told.{AreAsTold};

use currency_base::{ByteList, Name};
use currency_edge::{Shelf, ShelfFault};
use indexmap::IndexMap;
use std::alloc::Global;
use std::marker::Model;

/// How many bytes a document may have at most that is kept, where no more are asked for: 64 MiB, as of a table. A report
/// may be longer, and is asked for once.
const MOST_KEPT: usize = 67_108_864;

/// The documents of a shelf, each read once: what was read is kept under its name, and is given when the name is asked for
/// again. So all statements that name a table see the same bytes of it, also where these come from a pipe. A document that
/// may be longer than 64 MiB is not kept, nor one for which there is no memory; one that is kept and longer than is asked
/// for is read again. Contracts see the shelf.
#[derive(Drop)]
pub struct KeptShelf<S: Shelf> {
    shelf: S,
    kept: IndexMap<Name, ByteList>,
}

impl<S: Shelf> Model for KeptShelf<S> {
    ghost use Rattle.kept_documents.specs.Told.{AreAsTold};

    ghost Value = { S };

    ghost view = { λ k. k.shelf };

    ghost invariant = { λ k. AreAsTold (S.texts k.shelf) k.kept };
}

impl<S: Shelf> KeptShelf<S> {
    /// The documents of this shelf, of which none was read so far.
    pub fn new(alloc: Global, shelf: S) -> KeptShelf<S>
        ensures { result ≡ shelf }
    {
        KeptShelf {
            shelf,
            kept: IndexMap::new(alloc),
        }
    }

    // Keeps what was read, if it is to be kept and there is memory for it.
    fn keep(&mut self, alloc: Global, name: Name, at_most: usize, bytes: &[u8])
        requires { IfSome (S.texts self.old) (λ told. bytes.now ≡ document told name) }
        ensures { self.new ≡ self.old }
    {
        if at_most > MOST_KEPT {
            return;
        }
        let mut copy = Vec::new(alloc);
        if copy.extend_from_slice(bytes).is_err() {
            return;
        }
        let _ = self.kept.insert(name, ByteList::from_items(copy));
    }
}

impl<S: Shelf> Shelf for KeptShelf<S> {
    ghost texts = { λ s. S.texts s };

    ghost faults = { λ s. S.faults s };

    /// Reads the document from the shelf, unless it is kept.
    fn read(
        &mut self,
        alloc: Global,
        name: &str,
        at_most: usize,
        into: &mut Vec<u8>,
    ) -> Result<(), ShelfFault> {
        let Ok(key) = Name::from_bytes(alloc, name.as_bytes()) else {
            return Err(ShelfFault::NoMemory);
        };
        if let Some(bytes) = self.kept.get(&key) {
            if bytes.len() <= at_most {
                return match into.extend_from_slice(bytes.as_slice()) {
                    Ok(()) => Ok(()),
                    Err(_) => Err(ShelfFault::NoMemory),
                };
            }
        }
        self.shelf.read(alloc, name, at_most, into)?;
        self.keep(alloc, key, at_most, into);
        Ok(())
    }
}
