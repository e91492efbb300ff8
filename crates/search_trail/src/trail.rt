ghost use Rattle.std.specs.Prelude.{◌≡◌, ◌<◌, ◌≤◌, ◌-◌, ◌^◌, ◌∷◌, ◌++◌, ℕ, [], Contains, Some, nat_le, not, length, option_map, slice_get, slice_set, slice_index_or, vec_len, vec_capacity, drop, IfOk, IfSome, OnOk, OnErr};
ghost use Rattle.std.specs.List.{count_by};
ghost use Rattle.std.specs.List.Sorted.{IsNonDecreasing};
ghost use Rattle.currency_base.specs.Literals.{var_of, is_negative};
ghost use Rattle.search_trail.specs.Trails.{AreEntries, IsFree, IsReason, IsScope, StandsAt, assumed, entries_up_to, focused, implied, level_at, lits_of, passed, reason_in, rebased, undone, values_of, whole_scope};
ghost use Rattle.search_trail.specs.Kept.{reason_at};

use crate::Values;
use clause_arena::{Arena, ClauseNo};
use currency_base::{Lit, NoMemory};
use std::alloc::Global;
use std::marker::Model;

/// The literals that are true, in the order in which they came: each was assumed, and so opened a level, or was
/// implied by a clause. Contracts see the entries, where the levels begin, how many of them have been gone through, and
/// the scope. Only `new` and `focus` take memory.
#[derive(Drop)]
pub struct Trail {
    values: Values,
    lits: Vec<Lit>,
    // where the literal of each variable that has a value stands
    places: Vec<u32>,
    // the clause that implied the value of each variable that has one
    reasons: Vec<u32>,
    // by level, from the first on, how many literals there were before it
    starts: Vec<u32>,
    gone: usize,
}

impl Model for Trail {
    ghost use Rattle.search_trail.specs.Trails.{Trail as Trails};

    ghost Value = { Trails };

    ghost use Rattle.std.specs.Prelude.{length, vec_capacity};
    ghost use Rattle.search_trail.specs.Kept.{IsTrail, entries_of};

    ghost view = { λ t. record {
      vars = length t.values.given;
      entries = entries_of t.reasons.items t.lits.items;
      starts = t.starts.items;
      gone = t.gone;
      scope = t.values.scope;
    } };

    ghost invariant = { λ t. IsTrail t.values.given t.lits.items t.places.items t.reasons.items t.starts.items t.gone
        (vec_capacity t.lits) (vec_capacity t.starts) };
}

impl Trail {
    /// No literal is true, of so many variables, all of which are of the scope.
    pub fn new(alloc: Global, vars: u32) -> Result<Trail, NoMemory>
        requires { vars ≤ 2 ^ 31 }
        ensures { IfOk result (λ t. t ≡ record { vars = vars; entries = []; starts = []; gone = 0; scope = whole_scope vars }) }
    {
        let Ok(values) = Values::new(alloc, vars) else {
            return Err(NoMemory);
        };
        let Ok(lits) = Vec::with_capacity(alloc, vars as usize) else {
            return Err(NoMemory);
        };
        let Ok(places) = Vec::from_elem(alloc, 0, vars as usize) else {
            return Err(NoMemory);
        };
        let Ok(reasons) = Vec::from_elem(alloc, NO_REASON, vars as usize) else {
            return Err(NoMemory);
        };
        let Ok(starts) = Vec::with_capacity(alloc, vars as usize) else {
            return Err(NoMemory);
        };
        Ok(Trail {
            values,
            lits,
            places,
            reasons,
            starts,
            gone: 0,
        })
    }

    /// The value of each variable, and the scope.
    pub fn values(&self) -> &Values
        ensures { result.now ≡ values_of self.now }
    {
        &self.values
    }

    /// The true literals, in the order in which they came.
    pub fn assigned(&self) -> &[Lit]
        ensures { result.now ≡ lits_of self.now }
    {
        &self.lits
    }

    /// The true literals of the levels above one, in the order in which they came.
    pub fn above(&self, level: u32) -> &[Lit]
        requires { level ≤ length self.now.starts }
        ensures { result.now ≡ drop (entries_up_to self.now level) (lits_of self.now) }
    {
        let cut = cut_at(&self.starts, level as usize, self.lits.len());
        &self.lits[cut..]
    }

    /// The current level; 0 where nothing is assumed.
    pub fn depth(&self) -> u32
        ensures { result ≡ length self.now.starts }
    {
        self.starts.len() as u32
    }

    /// The place in the order of literals at which a level begins, of those from 1 on. Takes constant time.
    pub fn start(&self, level: u32) -> u32
        requires above { 0 < level }
        requires there { level ≤ length self.now.starts }
        ensures { slice_get self.now.starts (level - 1) ≡ Some result }
    {
        self.starts[(level - 1) as usize]
    }

    /// The place in the order of literals at which a variable got its value. Takes constant time.
    pub fn place(&self, var: u32) -> u32
        requires within { var < self.now.vars }
        requires given { IsFree self.now var → ⊥ }
        ensures { StandsAt self.now var result }
    {
        self.places[var as usize]
    }

    /// The level at which a variable got its value. Takes the logarithm of the levels' number.
    pub fn level(&self, var: u32) -> u32
        requires within { var < self.now.vars }
        requires given { IsFree self.now var → ⊥ }
        ensures { (place : ℕ) → StandsAt self.now var place → result ≡ level_at self.now place }
    {
        count_up_to(&self.starts, self.places[var as usize]) as u32
    }

    /// The clause that implied a variable's literal. There is none where the variable is free or was assumed.
    pub fn reason(&self, var: u32) -> Option<ClauseNo>
        requires { var < self.now.vars }
        ensures { option_map (λ no. no.0) result ≡ reason_in self.now.entries var }
    {
        if self.values.value(var).is_none() {
            return None;
        }
        reason_at(self.reasons[var as usize])
    }

    /// Opens a level with a literal of a free variable.
    pub fn assume(&mut self, lit: Lit)
        requires within { var_of lit < self.old.vars }
        requires free { IsFree self.old (var_of lit) }
        ensures { self.new ≡ assumed self.old lit }
    {
        let var = lit.var();
        let place = self.lits.len() as u32;
        self.places[var as usize] = place;
        self.reasons[var as usize] = NO_REASON;
        push_start(&mut self.starts, place);
        put_lit(&mut self.values, &mut self.lits, lit);
    }

    /// Makes a literal of a free variable true at the current level, by a clause that has it and whose other
    /// literals are false.
    pub fn imply(&mut self, arena: &Arena, lit: Lit, clause: ClauseNo)
        requires within { var_of lit < self.old.vars }
        requires free { IsFree self.old (var_of lit) }
        requires reason { IfSome (slice_get arena.now.clauses clause.0) (λ lits. IsReason lits (lits_of self.old) lit) }
        requires there { clause.0 < length arena.now.clauses }
        ensures { self.new ≡ implied self.old lit clause.0 }
    {
        // clauses are fewer than u32::MAX, which stands for none
        let _count = arena.count();
        let var = lit.var();
        self.places[var as usize] = self.lits.len() as u32;
        self.reasons[var as usize] = clause.0;
        put_lit(&mut self.values, &mut self.lits, lit);
    }

    /// Makes a clause of one literal, which is true, the reason of that literal in place of the one that it has. Takes
    /// constant time.
    pub fn rebase(&mut self, arena: &Arena, lit: Lit, clause: ClauseNo)
        requires within { var_of lit < self.old.vars }
        requires holds { Contains (lits_of self.old) lit }
        requires alone { slice_get arena.now.clauses clause.0 ≡ Some (lit ∷ []) }
        requires there { clause.0 < length arena.now.clauses }
        ensures { self.new ≡ rebased self.old (var_of lit) clause.0 }
    {
        // clauses are fewer than u32::MAX, which stands for none
        let _count = arena.count();
        self.reasons[lit.var() as usize] = clause.0;
    }

    /// Takes away the levels above one.
    pub fn undo_to(&mut self, level: u32)
        requires { level ≤ length self.old.starts }
        ensures { self.new ≡ undone self.old level }
    {
        if (level as usize) < self.starts.len() {
            let cut = self.starts[level as usize] as usize;
            self.values.take_back(&self.lits[cut..]);
            self.lits.truncate(cut);
            self.starts.truncate(level as usize);
            self.gone = self.gone.min(cut);
        }
    }

    /// Takes another scope, in time in proportion to it. A refusal changes nothing.
    pub fn focus(&mut self, alloc: Global, vars: &[u32]) -> Result<(), NoMemory>
        requires { IsScope self.old.vars vars.now }
        ensures ok { OnOk result (self.new ≡ focused self.old vars.now) }
        ensures err { OnErr result (self.new ≡ self.old) }
    {
        self.values.focus(alloc, vars)
    }

    /// The first literal that has not been gone through, if there is one.
    pub fn pending(&self) -> Option<Lit>
        ensures { result ≡ slice_get (lits_of self.now) self.now.gone }
    {
        self.lits.get(self.gone).copied()
    }

    /// One more literal has been gone through.
    pub fn pass(&mut self)
        requires { self.old.gone < length self.old.entries }
        ensures { self.new ≡ passed self.old }
    {
        self.gone += 1;
    }

    /// No work: the caller learns what is true of a trail at any moment.
    pub fn are_entries(&self)
        ensures { AreEntries self.now }
    {
        let _lits = &self.lits;
    }
}

// The number that stands for no reason.
const NO_REASON: u32 = u32::MAX;

// The clause that a number stands for.
fn reason_at(number: u32) -> Option<ClauseNo>
    ensures { option_map (λ no. no.0) result ≡ reason_at number }
{
    if number == NO_REASON {
        None
    } else {
        Some(ClauseNo(number))
    }
}

// How many levels begin up to a place.
fn count_up_to(starts: &[u32], place: u32) -> usize
    requires { IsNonDecreasing starts.now }
    ensures count { result ≡ count_by (λ start. nat_le start place) starts.now }
    ensures bound { result ≤ length starts.now }
{
    starts.partition_point(|start| *start <= place)
}

// Where the levels above one begin, of so many literals.
fn cut_at(starts: &[u32], level: usize, lits: usize) -> usize
    requires { (i start : ℕ) → slice_get starts.now i ≡ Some start → start < lits }
    ensures cut { result ≡ slice_index_or starts.now level lits }
    ensures within { result ≤ lits }
{
    if level < starts.len() {
        starts[level] as usize
    } else {
        lits
    }
}

// One more level; there is room for it.
fn push_start(starts: &mut Vec<u32>, start: u32)
    requires { vec_len starts.old < vec_capacity starts.old }
    ensures items { starts.new.items ≡ starts.old.items ++ start ∷ [] }
    ensures capacity { vec_capacity starts.old ≤ vec_capacity starts.new }
{
    let Ok(()) = starts.push(start) else {
        unreachable!();
    };
}

// One more true literal; there is room for it.
fn put_lit(values: &mut Values, lits: &mut Vec<Lit>, lit: Lit)
    requires within { var_of lit < length values.old.given }
    requires room { vec_len lits.old < vec_capacity lits.old }
    ensures values { values.new ≡ record values.old {
      given = slice_set values.old.given (var_of lit)
          (Some (not (is_negative lit)));
    } }
    ensures items { lits.new.items ≡ lits.old.items ++ lit ∷ [] }
    ensures capacity { vec_capacity lits.old ≤ vec_capacity lits.new }
{
    values.give(lit.var(), !lit.negative());
    let Ok(()) = lits.push(lit) else {
        unreachable!();
    };
}
