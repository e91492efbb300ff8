ghost use Rattle.std.specs.Prelude.{◌≡◌, ◌≤◌, ◌<◌, ◌+◌, ℕ, Option, List, [], length, take, vec_len, IfSome, OnOk, IsErrOf};
ghost use Rattle.currency_edge.specs.Fault.{Rose};
ghost use Rattle.currency_edge.specs.Shelf.{document};

use std::alloc::Global;
use std::error::Error;
use std::fmt;

/// Where documents are read from, by their names.
pub trait Shelf {
    /// The documents as pairs of a name and bytes, where the shelf tells them.
    ghost texts: { Self → Option (List (List ℕ × List ℕ)) };

    /// How many reads failed so far. The count stands still at the last value of a 64-bit counter.
    ghost faults: { Self → ℕ };

    /// Reads the whole document of a name into an empty buffer, or says why it did not.
    ///
    /// After `TooLong` the buffer holds the first `at_most + 1` bytes of the document. After `Failed`
    /// and `NoMemory` what it holds is open.
    fn read(
        &mut self,
        alloc: Global,
        name: &str,
        at_most: usize,
        into: &mut Vec<u8>,
    ) -> Result<(), ShelfFault>
        requires { into.old.items ≡ [] }
        ensures kept { texts self.new ≡ texts self.old }
        ensures later { faults self.old ≤ faults self.new }
        ensures within { OnOk result (vec_len into.new ≤ at_most) }
        ensures whole { OnOk result (IfSome (texts self.old)
            (λ told. into.new.items ≡ document told name.now)) }
        ensures failed { IsErrOf result ShelfFault.Failed → Rose (faults self.old) (faults self.new) }
        ensures filled { IsErrOf result ShelfFault.TooLong → vec_len into.new ≡ at_most + 1 }
        ensures front { IsErrOf result ShelfFault.TooLong → IfSome (texts self.old)
            (λ told. into.new.items ≡ take (at_most + 1) (document told name.now)) }
        ensures longer { IsErrOf result ShelfFault.TooLong → IfSome (texts self.old)
            (λ told. at_most < length (document told name.now)) };
}

/// Why a document was not read.
#[derive(Clone, Copy, Debug, PartialEq, Eq)]
pub enum ShelfFault {
    /// The shelf could not give the document, and counted a fault.
    Failed,
    /// The document has more bytes than were allowed.
    TooLong,
    /// There was no memory for the document.
    NoMemory,
}

impl fmt::Display for ShelfFault {
    fn fmt<W: fmt::Write>(&self, f: &mut fmt::Formatter<W>) -> fmt::Result {
        match self {
            ShelfFault::Failed => write!(f, "the document could not be read"),
            ShelfFault::TooLong => write!(f, "the document is too long"),
            ShelfFault::NoMemory => write!(f, "out of memory"),
        }
    }
}

impl Error for ShelfFault {}
