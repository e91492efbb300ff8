ghost use Rattle.std.specs.Prelude.{◌≡◌, ◌<◌, ◌∷◌, ◌++◌, [], length, slice_get, IsOk, OnOk, OnErr};

use currency_base::{NoMemory, Pair};
use smallvec::SmallVec;
use std::alloc::Global;
use std::marker::Model;

/// How many predicates a rule may have.
pub const MOST_PREDICATES: usize = 16;

/// The pairs that an instance of a rule supposes. Contracts see it as the list of the pairs. Sixteen
/// pairs need no memory.
#[derive(Drop)]
pub struct Premises {
    pairs: SmallVec<Pair, 16>,
}

impl Model for Premises {
    ghost use Rattle.std.specs.Prelude.{List, ◌≤◌};
    ghost use Rattle.currency_base.specs.declared.pair.Pair.{Pair};

    ghost Value = { List Pair };

    ghost view = { λ p. p.pairs.items };

    ghost invariant = { λ p. 16 ≤ p.pairs.capacity };
}

impl Premises {
    /// No premise, which takes no memory.
    pub fn new(alloc: Global) -> Premises
        ensures { result ≡ [] }
    {
        Premises {
            pairs: SmallVec::new(alloc),
        }
    }

    /// Adds a premise. The first sixteen are never refused; a refusal changes nothing.
    pub fn push(&mut self, pair: Pair) -> Result<(), NoMemory>
        ensures ok { OnOk result (self.new ≡ self.old ++ pair ∷ []) }
        ensures err { OnErr result (self.new ≡ self.old) }
        ensures room { length self.old < MOST_PREDICATES → IsOk result }
    {
        match self.pairs.push(pair) {
            Ok(()) => Ok(()),
            Err(_) => Err(NoMemory),
        }
    }

    /// How many premises there are.
    pub fn len(&self) -> usize
        ensures { result ≡ length self.now }
    {
        self.pairs.len()
    }

    /// The premise at a place, counted from 0.
    pub fn get(&self, place: usize) -> &Pair
        requires { place < length self.now }
        ensures { slice_get self.now place ≡ Some result.now }
    {
        &self.pairs.as_slice()[place]
    }

    /// All premises, in the order of the rule's predicates.
    pub fn as_slice(&self) -> &[Pair]
        ensures { result.now ≡ self.now }
    {
        self.pairs.as_slice()
    }
}
