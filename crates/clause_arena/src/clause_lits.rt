ghost use Rattle.std.specs.Prelude.{◌≡◌, ◌⊎◌, ◌+◌, ◌-◌, ◌<◌, ◌≤◌, ◌∷◌, ◌++◌, [], Some, List, min, length, slice_get, slice_set, slice_range, get_or, vec_len, vec_capacity, IfSome, IfOk, OnOk, OnErr};
ghost use Rattle.currency_base.specs.declared.lit.Lit.{Lit};
ghost use Rattle.flat_lists.specs.Flat.{cut_from, IsFlat};

use currency_base::{Lit, NoMemory};
use std::alloc::Global;
use std::marker::Model;

/// Clauses in one vector of literals, one after another: beside its literals a clause takes four bytes.
/// Together they have fewer than 2^32 literals. Contracts see the clauses, and for how many more clauses and
/// literals there is room.
#[derive(Drop)]
pub(crate) struct ClauseLits {
    lits: Vec<Lit>,
    // of each clause, how many literals there are up to its end
    ends: Vec<u32>,
}

impl Model for ClauseLits {
    ghost use Rattle.clause_arena.specs.Slots.{Clauses};

    ghost Value = { Clauses };

    ghost use Rattle.std.specs.Prelude.{◌-◌, min, length, vec_len, vec_capacity};
    ghost use Rattle.flat_lists.specs.Flat.{cut_from, IsFlat};

    ghost view = { λ c. record {
      lists = cut_from 0 c.ends.items c.lits.items;
      lists_left = vec_capacity c.ends - vec_len c.ends;
      lits_left = min (vec_capacity c.lits) 4294967295 - vec_len c.lits;
    } };

    ghost invariant = { λ c. IsFlat c.ends.items (length c.lits.items) };
}

impl ClauseLits {
    /// No clause. Takes no memory yet.
    pub(crate) fn new(alloc: Global) -> ClauseLits
        ensures { result.lists ≡ [] }
    {
        ClauseLits {
            lits: Vec::new(alloc),
            ends: Vec::new(alloc),
        }
    }

    /// How many clauses there are.
    pub(crate) fn len(&self) -> usize
        ensures { result ≡ length self.now.lists }
    {
        self.ends.len()
    }

    /// The literals of a clause.
    pub(crate) fn get(&self, clause: usize) -> &[Lit]
        requires { clause < length self.now.lists }
        ensures { slice_get self.now.lists clause ≡ Some result.now }
    {
        let (start, end) = span(&self.lits, &self.ends, clause);
        &self.lits[start..end]
    }

    /// Makes room for so many more clauses, and for so many more literals in them. It is refused where memory
    /// runs out, or the literals would have no numbers.
    pub(crate) fn reserve(&mut self, clauses: usize, lits: usize) -> Result<(), NoMemory>
        ensures lists { self.new.lists ≡ self.old.lists }
        ensures stays_lists { self.old.lists_left ≤ self.new.lists_left }
        ensures stays_lits { self.old.lits_left ≤ self.new.lits_left }
        ensures ok_lists { OnOk result (clauses ≤ self.new.lists_left) }
        ensures ok_lits { OnOk result (lits ≤ self.new.lits_left) }
        ensures full { OnErr result ((self.old.lists_left < clauses) ⊎ (self.old.lits_left < lits)) }
    {
        if self.lits.len().saturating_add(lits) > u32::MAX as usize {
            return Err(NoMemory);
        }
        let Ok(()) = self.ends.reserve(clauses) else {
            return Err(NoMemory);
        };
        let Ok(()) = self.lits.reserve(lits) else {
            return Err(NoMemory);
        };
        Ok(())
    }

    /// Puts a clause after the others. There has to be room for it.
    pub(crate) fn push(&mut self, lits: &[Lit])
        requires lists_room { 0 < self.old.lists_left }
        requires lits_room { length lits.now ≤ self.old.lits_left }
        ensures lists { self.new.lists ≡ self.old.lists ++ lits.now ∷ [] }
        ensures lists_left { self.old.lists_left ≤ self.new.lists_left + 1 }
        ensures lits_left { self.old.lits_left ≤ self.new.lits_left + length lits.now }
    {
        let end = (self.lits.len() + lits.len()) as u32;
        let Ok(()) = self.lits.extend_from_slice(lits) else {
            unreachable!();
        };
        let Ok(()) = self.ends.push(end) else {
            unreachable!();
        };
    }

    /// Puts another literal at a place of a clause.
    pub(crate) fn set(&mut self, clause: usize, place: usize, lit: Lit)
        requires clause { clause < length self.old.lists }
        requires place { IfSome (slice_get self.old.lists clause) (λ lits. place < length lits) }
        ensures lists { (lits : List Lit) → slice_get self.old.lists clause ≡ Some lits
            → self.new.lists ≡ slice_set self.old.lists clause (slice_set lits place lit) }
        ensures lists_left { self.new.lists_left ≡ self.old.lists_left }
        ensures lits_left { self.new.lits_left ≡ self.old.lits_left }
    {
        let start = start_of(&self.ends, clause);
        self.lits[start + place] = lit;
    }
}

// Where the literals of a clause start.
fn start_of(ends: &[u32], clause: usize) -> usize
    requires { clause ≤ length ends.now }
    ensures { result ≡ get_or (0 ∷ ends.now) clause 0 }
{
    if clause == 0 {
        return 0;
    }
    ends[clause - 1] as usize
}

// Where the literals of a clause start and end.
fn span(lits: &[Lit], ends: &[u32], clause: usize) -> (usize, usize)
    requires flat { IsFlat ends.now (length lits.now) }
    requires within { clause < length ends.now }
    ensures order { result.0 ≤ result.1 }
    ensures within { result.1 ≤ length lits.now }
    ensures list { slice_get (cut_from 0 ends.now lits.now) clause
        ≡ Some (slice_range lits.now result.0 result.1) }
{
    let start = start_of(ends, clause);
    (start, ends[clause] as usize)
}
