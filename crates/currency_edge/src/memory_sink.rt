ghost use Rattle.std.specs.Prelude.{◌≡◌, ◌<◌, ◌≤◌, ◌++◌, ◌↔◌, ℕ, List, [], length, take, None, Some, IsTrue, IfOk, OnErr, IsErrOf, MatchOption, true, false, if◌then◌else◌};
ghost use Rattle.currency_edge.specs.Fault.{Rose, one_more};
ghost use Rattle.currency_edge.specs.States.{fitting, is_full};

use crate::{Sink, SinkFault};
use std::alloc::Global;
use std::marker::Model;

/// Bytes kept in memory, in a sink that can be made to fail.
///
/// Contracts see its bytes, how many it takes in all where that is limited, and the count of faults.
#[derive(Drop)]
pub struct MemorySink {
    bytes: Vec<u8>,
    limit: Option<u64>,
    faults: u64,
}

impl Model for MemorySink {
    ghost use Rattle.currency_edge.specs.States.{SinkState};

    ghost Value = { SinkState };

    ghost view = { λ s. record { written = s.bytes.items; limit = s.limit; faults = s.faults } };
}

impl MemorySink {
    /// A sink with no byte, no limit and no fault.
    pub fn new(alloc: Global) -> MemorySink
        ensures { result ≡ record { written = []; limit = None; faults = 0 } }
    {
        MemorySink {
            bytes: Vec::new(alloc),
            limit: None,
            faults: 0,
        }
    }

    /// Lets the sink take that many bytes in all, those it has included, and fail from then on. A
    /// later call takes the place of an earlier one.
    pub fn fail_after(&mut self, bytes: u64)
        ensures { self.new ≡ record self.old { limit = Some bytes } }
    {
        self.limit = Some(bytes);
    }

    /// The bytes so far.
    pub fn written(&self) -> &[u8]
        ensures { result.now ≡ self.now.written }
    {
        self.bytes.as_slice()
    }

    // How many of so many bytes still fit, or nothing where the sink is full.
    fn room(&self, count: usize) -> Option<usize>
        ensures { MatchOption result
            (is_full self.now ≡ true)
            (λ n. (is_full self.now ≡ false) × (n ≡ fitting self.now count)) }
    {
        let Some(limit) = self.limit else {
            return Some(count);
        };
        let held = self.bytes.len() as u64;
        if limit <= held {
            return None;
        }
        Some((limit - held).min(count as u64) as usize)
    }
}

impl Sink for MemorySink {
    ghost written = { λ s. Some s.written };

    ghost faults = { λ s. s.faults };

    /// Takes as many bytes of the piece as still fit, and fails where none does.
    fn write(&mut self, _alloc: Global, bytes: &[u8]) -> Result<usize, SinkFault>
        requires { 0 < length bytes.now }
        ensures full { IsErrOf result SinkFault.Failed ↔ IsTrue (is_full self.old) }
        ensures rose { IsErrOf result SinkFault.Failed → Rose self.old.faults self.new.faults }
        ensures some { IfOk result (λ n. 0 < n) }
        ensures bound { IfOk result (λ n. n ≤ length bytes.now) }
        ensures fitting { IfOk result (λ n. n ≡ fitting self.old (length bytes.now)) }
        ensures appends { IfOk result (λ n. self.new.written ≡ self.old.written ++ take n bytes.now) }
        ensures refused { OnErr result (self.new.written ≡ self.old.written) }
        ensures limit { self.new.limit ≡ self.old.limit }
        ensures later { self.old.faults ≤ self.new.faults }
        ensures counted { self.new.faults ≡
            (if is_full self.old then one_more self.old.faults else self.old.faults) }
    {
        let Some(count) = self.room(bytes.len()) else {
            self.faults = self.faults.saturating_add(1);
            return Err(SinkFault::Failed);
        };
        match self.bytes.extend_from_slice(&bytes[..count]) {
            Ok(()) => Ok(count),
            Err(_) => Err(SinkFault::NoMemory),
        }
    }
}
