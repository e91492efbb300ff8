ghost use Rattle.std.specs.Prelude.{◌≡◌, List, IfOk};
ghost use Rattle.std.specs.Cmp.{IsTotalOrder};
ghost use Rattle.std.specs.declared.cmp.Ordering.TheVariants.{Equal};
ghost use Rattle.currency_base.specs.declared.value.Value.{Value};
ghost use Rattle.std.specs.Cmp.Lexicographic.{slice_cmp};
ghost use Rattle.currency_base.specs.Values.{value_cmp};

use crate::{ItemList, NoMemory, Tuple, Value};
use std::alloc::Global;
use std::cmp::Ordering;

impl ItemList<Value> {
    /// The order of tuples: place by place, an int below a text, ints by number and texts by their bytes;
    /// of a tuple and what goes on from it, the shorter one is below. Takes no memory.
    pub fn order(&self, other: &Tuple) -> Ordering
        ensures { result ≡ slice_cmp value_cmp self.now other.now }
    {
        self.as_slice().cmp(other.as_slice())
    }

    /// An equal tuple.
    pub fn duplicate(&self, alloc: Global) -> Result<Tuple, NoMemory>
        ensures { IfOk result (λ copy. copy ≡ self.now) }
    {
        let mut copy = Tuple::new(alloc);
        for value in self.as_slice() {
            copy.push(value.duplicate(alloc)?)?;
        }
        Ok(copy)
    }
}

/// Laws of the order of tuples: it is total, and equal for equal tuples alone.
pub fn laws_of_tuple_order()
    ensures total { IsTotalOrder (slice_cmp value_cmp) }
    ensures equal { (a b : List Value) → slice_cmp value_cmp a b ≡ Equal → a ≡ b }
{}
