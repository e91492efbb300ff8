ghost use Rattle.std.specs.Prelude.{◌≡◌, ◌<◌, Bool, true, false, length, replicate, slice_set, slice_index_or, IfOk};

use currency_base::NoMemory;
use std::alloc::Global;
use std::marker::Model;

/// Which places of a trail have been met since the marks were cleared. Clearing them takes constant time, but once
/// in 2^32 times. Contracts see a truth for each place.
#[derive(Drop)]
pub(crate) struct Marks {
    // by place, the round in which it was met last
    rounds: Vec<u32>,
    // the number of this round
    round: u32,
}

impl Model for Marks {
    ghost use Rattle.std.specs.Prelude.{List, Bool, ◌==◌, ◌≤◌, All, map};

    ghost Value = { List Bool };

    ghost view = { λ m. map (λ r. r == m.round) m.rounds.items };

    ghost invariant = { λ m. All (λ r. r ≤ m.round) m.rounds.items };
}

impl Marks {
    /// Marks for so many places, none of them met.
    pub(crate) fn new(alloc: Global, places: u32) -> Result<Marks, NoMemory>
        ensures { IfOk result (λ m. m ≡ replicate places false) }
    {
        match Vec::from_elem(alloc, 0, places as usize) {
            Ok(rounds) => Ok(Marks { rounds, round: 1 }),
            Err(_) => Err(NoMemory),
        }
    }

    /// No place is met.
    pub(crate) fn clear(&mut self)
        ensures { self.new ≡ replicate (length self.old) false }
    {
        if self.round < u32::MAX {
            self.round += 1;
        } else {
            self.start_over();
        }
    }

    // No place is met, and the rounds are counted from the first again.
    fn start_over(&mut self)
        ensures { self.new ≡ replicate (length self.old) false }
    {
        self.rounds.fill(0);
        self.round = 1;
    }

    /// Has the place been met?
    pub(crate) fn is_met(&self, place: u32) -> bool
        requires { place < length self.now }
        ensures { result ≡ slice_index_or self.now place false }
    {
        self.rounds[place as usize] == self.round
    }

    /// The place is met.
    pub(crate) fn meet(&mut self, place: u32)
        requires { place < length self.old }
        ensures { self.new ≡ slice_set self.old place true }
    {
        self.rounds[place as usize] = self.round;
    }
}
