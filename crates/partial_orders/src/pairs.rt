ghost use Rattle.std.specs.Prelude.{◌≡◌, ◌≢◌, ◌<◌, true, false, List, [], length, Contains, IsErrOf, OnOk, OnErr};
ghost use Rattle.std.specs.BTreeSet.{insert_key};
ghost use Rattle.std.specs.List.Sorted.{IsStrictlySortedBy};
ghost use Rattle.currency_base.specs.declared.pair.Pair.{Pair};
ghost use Rattle.partial_orders.specs.Pairs.{pair_cmp, has_pair, without_pair, AreOfOneEntity};

use currency_base::{NoMemory, Pair, Rows};
use std::alloc::Global;
use std::collections::BTreeSet;
use std::collections::btree_set::Iter;
use std::marker::Model;

/// A set of pairs of rows of one relation, each of two different rows of one entity. Contracts see it
/// as the list of its pairs, which ascend by attribute, earlier row and later row.
#[derive(Drop)]
pub struct Pairs {
    set: BTreeSet<Pair>,
}

impl Model for Pairs {
    ghost use Rattle.std.specs.Prelude.{List};
    ghost use Rattle.currency_base.specs.declared.pair.Pair.{Pair};

    ghost Value = { List Pair };

    ghost view = { λ p. p.set.keys };
}

/// Why a pair is not added.
#[derive(Clone, Copy, Debug, PartialEq, Eq)]
pub enum PairFault {
    /// The rows are one row, or of two entities.
    NotOneEntity,
    /// Want of memory.
    NoMemory,
}

impl Pairs {
    /// A set with no pair.
    pub fn new(alloc: Global) -> Pairs
        ensures { result ≡ [] }
    {
        Pairs {
            set: BTreeSet::new(alloc),
        }
    }

    /// Adds a pair. One that is there already changes nothing, and so does a refusal.
    pub fn add(&mut self, rows: &Rows, pair: Pair) -> Result<(), PairFault>
        requires earlier { pair.earlier.0 < length rows.now }
        requires later { pair.later.0 < length rows.now }
        ensures ok { OnOk result (self.new ≡ insert_key pair_cmp self.old pair) }
        ensures one_entity { OnOk result (AreOfOneEntity rows.now pair) }
        ensures refused { IsErrOf result PairFault.NotOneEntity → AreOfOneEntity rows.now pair → ⊥ }
        ensures err { OnErr result (self.new ≡ self.old) }
    {
        let one_entity = rows.row(pair.earlier).entity == rows.row(pair.later).entity;
        if pair.earlier == pair.later || !one_entity {
            return Err(PairFault::NotOneEntity);
        }
        match self.set.insert(pair) {
            Ok(_) => Ok(()),
            Err(_) => Err(PairFault::NoMemory),
        }
    }

    /// Takes out a pair, and says whether it was there. Takes no memory.
    pub fn remove(&mut self, pair: Pair) -> bool
        ensures value { self.new ≡ without_pair self.old pair }
        ensures was { result ≡ has_pair self.old pair }
        ensures gone { Contains self.new pair → ⊥ }
        ensures others { (p : Pair) → p ≢ pair → Contains self.old p → Contains self.new p }
        ensures among { (p : Pair) → Contains self.new p → Contains self.old p }
    {
        self.set.remove(&pair)
    }

    /// Is the pair there? Takes no memory.
    pub fn has(&self, pair: Pair) -> bool
        ensures value { result ≡ has_pair self.now pair }
        ensures is_there { result ≡ true → Contains self.now pair }
        ensures is_found { Contains self.now pair → result ≡ true }
    {
        self.set.contains(&pair)
    }

    /// How many pairs there are.
    pub fn len(&self) -> usize
        ensures { result ≡ length self.now }
    {
        self.set.len()
    }

    /// The pairs, in order: by attribute, earlier row and later row. No pair stands twice.
    pub fn iter(&self) -> Iter<'_, Pair>
        ensures all { result ≡ self.now }
        ensures ascend { IsStrictlySortedBy pair_cmp self.now }
    {
        self.set.iter()
    }
}

/// A law: to add a pair that was not there and to take it out again leaves the pairs as they were, and
/// so does to take out one that was there and to add it again.
pub fn pairs_are_restored()
    ensures added { (pairs : List Pair) (pair : Pair) → has_pair pairs pair ≡ false
        → without_pair (insert_key pair_cmp pairs pair) pair ≡ pairs }
    ensures taken { (pairs : List Pair) (pair : Pair) → IsStrictlySortedBy pair_cmp pairs → has_pair pairs pair ≡ true
        → insert_key pair_cmp (without_pair pairs pair) pair ≡ pairs }
{}
