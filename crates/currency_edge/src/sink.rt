ghost use Rattle.std.specs.Prelude.{◌≡◌, ◌≤◌, ◌<◌, ℕ, Option, List, [], length, take, IsOk, IfOk, OnOk, OnErr, IsErrOf};
ghost use Rattle.std.specs.Io.KnownBytes.{Appends, Keeps};
ghost use Rattle.currency_edge.specs.Fault.{Rose};
ghost use Rattle.currency_edge.specs.Sink.{AppendsPrefix};

use std::alloc::Global;
use std::error::Error;
use std::fmt;

/// Where bytes are written to, piece by piece.
pub trait Sink {
    /// The bytes so far, where the sink tells them.
    ghost written: { Self → Option (List ℕ) };

    /// How many writes failed so far. The count stands still at the last value of a 64-bit counter.
    ghost faults: { Self → ℕ };

    /// Writes a front of the piece and answers how many bytes that was, at least one.
    ///
    /// The piece is not empty. After a fault nothing of it was written.
    fn write(&mut self, alloc: Global, bytes: &[u8]) -> Result<usize, SinkFault>
        requires { 0 < length bytes.now }
        ensures later { faults self.old ≤ faults self.new }
        ensures some { IfOk result (λ n. 0 < n) }
        ensures bound { IfOk result (λ n. n ≤ length bytes.now) }
        ensures appends { IfOk result
            (λ n. Appends (written self.old) (written self.new) (take n bytes.now)) }
        ensures failed { IsErrOf result SinkFault.Failed → Rose (faults self.old) (faults self.new) }
        ensures refused { OnErr result (Keeps (written self.old) (written self.new)) };
}

/// Why a piece was not written.
#[derive(Clone, Copy, Debug, PartialEq, Eq)]
pub enum SinkFault {
    /// The sink could not take a byte, and counted a fault.
    Failed,
    /// There was no memory for the bytes.
    NoMemory,
}

impl fmt::Display for SinkFault {
    fn fmt<W: fmt::Write>(&self, f: &mut fmt::Formatter<W>) -> fmt::Result {
        match self {
            SinkFault::Failed => write!(f, "the output could not be written"),
            SinkFault::NoMemory => write!(f, "out of memory"),
        }
    }
}

impl Error for SinkFault {}

/// Writes all the bytes, in as many pieces as the sink needs.
///
/// Where the sink refuses a piece, its fault is the answer, and a front of the bytes was written.
/// With no bytes the sink is left alone.
pub fn put_all<K: Sink>(alloc: Global, out: &mut K, bytes: &[u8]) -> Result<(), SinkFault>
    ensures later { K.faults out.old ≤ K.faults out.new }
    ensures all { OnOk result (Appends (K.written out.old) (K.written out.new) bytes.now) }
    ensures part { OnErr result (AppendsPrefix (K.written out.old) (K.written out.new) bytes.now) }
    ensures failed { IsErrOf result SinkFault.Failed → Rose (K.faults out.old) (K.faults out.new) }
    ensures nothing { bytes.now ≡ [] → IsOk result }
    ensures untouched { bytes.now ≡ [] → out.new ≡ out.old }
{
    if bytes.is_empty() {
        return Ok(());
    }
    let mut at = 0;
    while at < bytes.len() {
        match out.write(alloc, &bytes[at..]) {
            Ok(count) => at += count,
            Err(fault) => return Err(fault),
        }
    }
    Ok(())
}
