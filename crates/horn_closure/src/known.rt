ghost use Rattle.std.specs.Prelude.{◌≡◌, ◌<◌, ◌≤◌, [], length, IfOk, IfSome, OnOk, IfNone};
ghost use Rattle.horn_closure.specs.Least.{IsAmong};
ghost use Rattle.horn_closure.specs.Steps.{StandsAt, IsAdded, AreOnce};

use crate::{Derived, Why};
use currency_base::NoMemory;
use std::alloc::Global;
use std::marker::Model;

/// The cells that were derived, in order, and where each stands. Contracts see how many cells there are, and those
/// that were derived.
#[derive(Drop)]
pub struct Known {
    derived: Vec<Derived>,
    // of each cell, one more than its place, or 0 where it was not derived
    places: Vec<u32>,
}

impl Model for Known {
    ghost use Rattle.horn_closure.specs.Steps.{Derivation};

    ghost Value = { Derivation };

    ghost use Rattle.std.specs.Prelude.{length};
    ghost use Rattle.horn_closure.specs.Steps.{AreKnown};

    ghost view = { λ k. record { cells = length k.places.items; derived = k.derived.items } };

    ghost invariant = { λ k. AreKnown k.places.items k.derived.items };
}

impl Known {
    /// None of so many cells was derived.
    pub fn new(alloc: Global, cells: u32) -> Result<Known, NoMemory>
        ensures { IfOk result (λ k. k ≡ record { cells = cells; derived = [] }) }
    {
        let places = Vec::from_elem(alloc, 0, cells as usize)?;
        Ok(Known {
            derived: Vec::new(alloc),
            places,
        })
    }

    /// How many cells were derived.
    pub fn len(&self) -> u32
        ensures count { result ≡ length self.now.derived }
        ensures within { result ≤ self.now.cells }
    {
        self.derived.len() as u32
    }

    /// The cell that was derived at a place.
    pub fn slot(&self, place: u32) -> u32
        requires { place < length self.now.derived }
        ensures at { StandsAt self.now.derived place result }
        ensures within { result < self.now.cells }
    {
        self.derived[place as usize].slot
    }

    /// Where a cell was derived, if it was.
    pub fn place(&self, slot: u32) -> Option<u32>
        requires { slot < self.now.cells }
        ensures some { IfSome result (λ place. StandsAt self.now.derived place slot) }
        ensures none { IfNone result (IsAmong self.now.derived slot → ⊥) }
    {
        let place = self.places[slot as usize];
        if place == 0 { None } else { Some(place - 1) }
    }

    /// Derives a cell, where it was not derived before.
    pub fn add(&mut self, slot: u32, why: Why) -> Result<(), NoMemory>
        requires { slot < self.old.cells }
        ensures cells { self.new.cells ≡ self.old.cells }
        ensures ok { OnOk result (IsAdded self.old.derived slot why self.new.derived) }
    {
        if self.places[slot as usize] != 0 {
            return Ok(());
        }
        let place = self.derived.len() as u32;
        self.derived.push(Derived { slot, why })?;
        self.places[slot as usize] = place + 1;
        Ok(())
    }

    /// The cells that were derived.
    pub fn into_derived(self) -> Vec<Derived>
        ensures items { result.items ≡ self.derived }
        ensures once { AreOnce self.derived }
    {
        self.derived
    }
}
