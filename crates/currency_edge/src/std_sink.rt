ghost use Rattle.std.specs.Prelude.{◌≡◌, ◌<◌, ◌≤◌, ℕ, length, take, IfOk, OnErr, IsErrOf};
ghost use Rattle.std.specs.Io.KnownBytes.{Appends, Keeps};

use crate::{Sink, SinkFault};
use std::alloc::Global;
use std::io::{ErrorKind, Write};
use std::marker::Model;

/// A writer of the system, as standard output. It tells of its content what the writer tells, and
/// standard output tells nothing. Contracts see that and the count of faults.
#[derive(Drop)]
pub struct StdSink<W: Write + Drop> {
    out: W,
    faults: u64,
}

impl<W: Write + Drop> Model for StdSink<W> {
    ghost use Rattle.currency_edge.specs.States.{WriterState};

    ghost Value = { WriterState };

    ghost view = { λ s. record { written = W.contents s.out; faults = s.faults } };
}

impl<W: Write + Drop> StdSink<W> {
    /// A sink over that writer, with no fault so far.
    pub fn new(out: W) -> StdSink<W>
        ensures { result ≡ record { written = W.contents out; faults = 0 } }
    {
        StdSink { out, faults: 0 }
    }
}

impl<W: Write + Drop> Sink for StdSink<W> {
    ghost written = { λ s. s.written };

    ghost faults = { λ s. s.faults };

    /// Hands the piece to the writer once. A write that takes nothing is a fault.
    fn write(&mut self, _alloc: Global, bytes: &[u8]) -> Result<usize, SinkFault> {
        let outcome = write_some(&mut self.out, bytes);
        if let Err(SinkFault::Failed) = outcome {
            self.faults = self.faults.saturating_add(1);
        }
        outcome
    }
}

// Writes a front of the piece, at least one byte. A write is made again where a signal interrupts it.
fn write_some<W: Write>(out: &mut W, bytes: &[u8]) -> Result<usize, SinkFault>
    requires { 0 < length bytes.now }
    ensures some { IfOk result (λ n. 0 < n) }
    ensures bound { IfOk result (λ n. n ≤ length bytes.now) }
    ensures appends { IfOk result
        (λ n. Appends (W.contents out.old) (W.contents out.new) (take n bytes.now)) }
    ensures refused { OnErr result (Keeps (W.contents out.old) (W.contents out.new)) }
{
    for _ in 0..u64::MAX {
        match out.write(bytes) {
            Ok(0) => return Err(SinkFault::Failed),
            Ok(count) => return Ok(count),
            Err(error) => match error.kind() {
                ErrorKind::Interrupted => {}
                ErrorKind::OutOfMemory => return Err(SinkFault::NoMemory),
                _ => return Err(SinkFault::Failed),
            },
        }
    }
    Err(SinkFault::Failed)
}
