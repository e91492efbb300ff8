ghost use Rattle.std.specs.Prelude.{◌≡◌, ◌<◌, ◌≤◌, ◌/◌, ◌^◌, [], Some, true, false, length, map, replicate, slice_get, slice_set, OnOk, OnErr, IfSome, IfNone, ℕ};
ghost use Rattle.count_tree.specs.Greatest.{IsGreatest};

use crate::tournament::{NO_NUMBER, divide_all, mend, mend_all, mend_up, node};
use currency_base::NoMemory;
use std::alloc::Global;
use std::marker::Model;

/// Counts of numbers from 0 on, of which some are present. The present number with the greatest count is found in
/// constant time, and each change takes logarithmic time. Contracts see the counts, and which numbers are present. A
/// number takes thirteen bytes.
#[derive(Drop)]
pub struct CountTree {
    counts: Vec<u64>,
    present: Vec<bool>,
    // a tournament: node i, from 1 on, has the better one of what its children 2i and 2i + 1 have. There are twice as many
    // nodes as numbers: the first half stands here, the last half are the numbers themselves, where they are present
    best: Vec<u32>,
}

impl Model for CountTree {
    ghost use Rattle.count_tree.specs.Greatest.{Counts};

    ghost Value = { Counts };

    ghost use Rattle.count_tree.specs.Nodes.{IsTree};

    ghost view = { λ t. record {
      counts = t.counts.items;
      present = t.present.items;
    } };

    ghost invariant = { λ t. IsTree t.counts.items t.present.items t.best.items };
}

impl CountTree {
    /// No number.
    pub fn new(alloc: Global) -> CountTree
        ensures { result ≡ record { counts = []; present = [] } }
    {
        CountTree {
            counts: Vec::new(alloc),
            present: Vec::new(alloc),
            best: Vec::new(alloc),
        }
    }

    /// So many numbers, all of them present, each with count 0. No other call takes memory. A refusal changes nothing.
    pub fn fit(&mut self, alloc: Global, numbers: u32) -> Result<(), NoMemory>
        ensures counts { OnOk result (self.new.counts ≡ replicate numbers 0) }
        ensures present { OnOk result (self.new.present ≡ replicate numbers true) }
        ensures err { OnErr result (self.new ≡ self.old) }
    {
        let Ok(counts) = Vec::from_elem(alloc, 0, numbers as usize) else {
            return Err(NoMemory);
        };
        let Ok(present) = Vec::from_elem(alloc, true, numbers as usize) else {
            return Err(NoMemory);
        };
        let Ok(mut best) = Vec::from_elem(alloc, NO_NUMBER, numbers as usize) else {
            return Err(NoMemory);
        };
        mend_all(&counts, &present, &mut best);
        *self = CountTree {
            counts,
            present,
            best,
        };
        Ok(())
    }

    /// How many numbers there are.
    pub fn len(&self) -> u32
        ensures counts { result ≡ length self.now.counts }
        ensures present { result ≡ length self.now.present }
    {
        self.counts.len() as u32
    }

    /// The count of a number.
    pub fn count(&self, number: u32) -> u64
        requires { number < length self.now.counts }
        ensures { slice_get self.now.counts number ≡ Some result }
    {
        self.counts[number as usize]
    }

    /// Gives a number another count.
    pub fn set_count(&mut self, number: u32, count: u64)
        requires { number < length self.old.counts }
        ensures counts { self.new.counts ≡ slice_set self.old.counts number count }
        ensures present { self.new.present ≡ self.old.present }
    {
        self.counts[number as usize] = count;
        if !self.present[number as usize] {
            // it stands at no node
            return;
        }
        let above = (self.best.len() + number as usize) / 2;
        mend(&self.counts, &self.present, &mut self.best, above);
    }

    /// Makes a number present, or takes it off. Where it is so already, this takes constant time.
    pub fn set_present(&mut self, number: u32, present: bool)
        requires { number < length self.old.counts }
        ensures counts { self.new.counts ≡ self.old.counts }
        ensures present { self.new.present ≡ slice_set self.old.present number present }
    {
        if self.present[number as usize] == present {
            return;
        }
        self.present[number as usize] = present;
        let above = (self.best.len() + number as usize) / 2;
        mend_up(&self.counts, &self.present, &mut self.best, above);
    }

    /// Divides all counts by 2 to the power of a number below 64, rounded down. Takes time in proportion to all numbers.
    pub fn divide(&mut self, power: u32)
        requires { power < 64 }
        ensures counts { self.new.counts ≡ map (λ count. count / 2 ^ power) self.old.counts }
        ensures present { self.new.present ≡ self.old.present }
    {
        divide_all(&mut self.counts, power);
        mend_all(&self.counts, &self.present, &mut self.best);
    }

    /// The present number with the greatest count, the first of several.
    pub fn greatest(&self) -> Option<u32>
        ensures some { IfSome result (IsGreatest self.now) }
        ensures none { IfNone result ((number : ℕ) → slice_get self.now.present number ≡ Some true → ⊥) }
    {
        if self.best.is_empty() {
            return None;
        }
        let first = node(&self.present, &self.best, 1);
        if first == NO_NUMBER {
            None
        } else {
            Some(first)
        }
    }
}
