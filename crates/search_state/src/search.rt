ghost use Rattle.std.specs.Prelude.{◌≡◌, ◌⊎◌, ◌<◌, ◌≤◌, ◌*◌, ◌^◌, ◌∷◌, ◌++◌, ℕ, List, [], All, Contains, Some, None, length, slice_get, IfOk, OnOk};
ghost use Rattle.currency_base.specs.Lists.{OnlyOnce};
ghost use Rattle.currency_base.specs.Literals.{var_of};
ghost use Rattle.currency_base.specs.declared.lit.Lit.{Lit};
ghost use Rattle.clause_arena.specs.Arenas.{AreWithin};
ghost use Rattle.search_trail.specs.Trails.{implied, lits_of, undone, whole_scope};
ghost use Rattle.watch_propagate.specs.WatchRule.{HasAdded, IsDueTo};
ghost use Rattle.search_state.specs.Held.{AreHeld, BeginsOpen, BeginsTrue, BeginsUnit};
ghost use Rattle.search_state.specs.States.{IsFit};

use crate::leaving::drop_supersets;
use crate::orders::{Standing, arrange};
use clause_arena::{Arena, ClauseNo};
use currency_base::{Lit, NoMemory};
use search_trail::Trail;
use solver_guides::Guides;
use std::alloc::Global;

// How many literals a clause mostly has.
const USUAL: usize = 3;

/// Clauses in an arena, and a trail over them.
#[derive(Drop)]
pub(crate) struct Search {
    pub(crate) arena: Arena,
    pub(crate) trail: Trail,
    // the literals of a clause, before they are put into the arena
    pub(crate) lits: Vec<Lit>,
    // a clause that is false while nothing is assumed
    pub(crate) refuted: Option<u32>,
}

impl Search {
    /// No clause, and no literal is true.
    pub(crate) fn new(alloc: Global, vars: u32) -> Result<Search, NoMemory>
        requires { vars ≤ 2 ^ 31 }
        ensures held { IfOk result (λ s. AreHeld [] s.arena s.trail s.refuted) }
        ensures vars { IfOk result (λ s. s.trail.vars ≡ vars) }
        ensures ground { IfOk result (λ s. s.trail.starts ≡ []) }
        ensures scope { IfOk result (λ s. s.trail.scope ≡ whole_scope vars) }
        ensures watchers { IfOk result (λ s. length s.arena.watchers ≡ 2 * vars) }
    {
        let Ok(arena) = Arena::new(alloc, vars) else {
            return Err(NoMemory);
        };
        let Ok(trail) = Trail::new(alloc, vars) else {
            return Err(NoMemory);
        };
        Ok(Search {
            arena,
            trail,
            lits: Vec::new(alloc),
            refuted: None,
        })
    }

    /// Makes room for a clause of so many literals: where none was promised, for as many clauses as there are, as far as memory
    /// allows. Nothing else changes.
    pub(crate) fn reserve(&mut self, lits: usize) -> Result<(), NoMemory>
        ensures held { (clauses : List (List Lit)) → AreHeld clauses self.old.arena self.old.trail self.old.refuted
            → AreHeld clauses self.new.arena self.new.trail self.new.refuted }
        ensures count { length self.new.arena.clauses ≡ length self.old.arena.clauses }
        ensures watchers { length self.new.arena.watchers ≡ length self.old.arena.watchers }
        ensures trail { self.new.trail ≡ self.old.trail }
        ensures refuted { self.new.refuted ≡ self.old.refuted }
        ensures room { OnOk result (1 ≤ self.new.arena.clauses_left) }
        ensures lits_room { OnOk result (lits ≤ self.new.arena.lits_left) }
    {
        make_room(&mut self.arena, lits);
        self.arena.reserve(1, lits)
    }

    /// Makes room for a clause and copies its literals. Nothing else changes.
    pub(crate) fn prepare(&mut self, lits: &[Lit]) -> Result<(), NoMemory>
        ensures held { (clauses : List (List Lit)) → AreHeld clauses self.old.arena self.old.trail self.old.refuted
            → AreHeld clauses self.new.arena self.new.trail self.new.refuted }
        ensures watchers { length self.new.arena.watchers ≡ length self.old.arena.watchers }
        ensures trail { self.new.trail ≡ self.old.trail }
        ensures refuted { self.new.refuted ≡ self.old.refuted }
        ensures lits { OnOk result (self.new.lits.items ≡ lits.now) }
        ensures room { OnOk result (1 ≤ self.new.arena.clauses_left) }
        ensures lits_room { OnOk result (length lits.now ≤ self.new.arena.lits_left) }
    {
        let Ok(()) = self.reserve(lits.len()) else {
            return Err(NoMemory);
        };
        copy(&mut self.lits, lits)
    }

    /// Puts the clause in that was prepared, where nothing is assumed: its literals in an order in which they may be
    /// watched. Where it implies a literal that becomes true, and where it is false that is kept in mind.
    pub(crate) fn put(&mut self)
        requires ground { self.old.trail.starts ≡ [] }
        requires vars { length self.old.arena.watchers ≡ 2 * self.old.trail.vars }
        requires fit { IsFit self.old.trail.vars self.old.lits.items }
        requires room { 1 ≤ self.old.arena.clauses_left }
        requires lits_room { length self.old.lits.items ≤ self.old.arena.lits_left }
        ensures held { (clauses : List (List Lit)) → AreHeld clauses self.old.arena self.old.trail self.old.refuted
            → AreHeld (clauses ++ self.old.lits.items ∷ []) self.new.arena self.new.trail self.new.refuted }
        ensures ground { self.new.trail.starts ≡ [] }
        ensures vars { self.new.trail.vars ≡ self.old.trail.vars }
        ensures scope { self.new.trail.scope ≡ self.old.trail.scope }
        ensures watchers { length self.new.arena.watchers ≡ length self.old.arena.watchers }
    {
        let standing = arrange(&mut self.lits, &self.trail);
        let number = enter(&mut self.arena, &self.lits);
        self.trail.are_entries();
        if self.refuted.is_some() {
            return;
        }
        match standing {
            Standing::Rests => self.rest(number),
            Standing::Implies => self.trail.imply(&self.arena, self.lits[0], number),
            Standing::Fails => self.refuted = Some(number.0),
        }
    }

    // A clause of one literal, which is true, becomes the reason of that literal, so that what is explained by it is not
    // explained by the chain that made it true.
    fn rest(&mut self, number: ClauseNo)
        requires first { BeginsTrue (lits_of self.old.trail) self.old.lits.items ⊎ BeginsOpen (lits_of self.old.trail)
            self.old.lits.items }
        requires within { All (λ lit. var_of lit < self.old.trail.vars) self.old.lits.items }
        requires there { slice_get self.old.arena.clauses number.0 ≡ Some self.old.lits.items }
        ensures held { (clauses : List (List Lit)) → AreHeld clauses self.old.arena self.old.trail self.old.refuted
            → AreHeld clauses self.new.arena self.new.trail self.new.refuted }
        ensures ground { self.new.trail.starts ≡ self.old.trail.starts }
        ensures vars { self.new.trail.vars ≡ self.old.trail.vars }
        ensures scope { self.new.trail.scope ≡ self.old.trail.scope }
        ensures watchers { length self.new.arena.watchers ≡ length self.old.arena.watchers }
    {
        if self.lits.len() != 1 {
            return;
        }
        self.trail.are_entries();
        self.trail.rebase(&self.arena, self.lits[0], number);
    }

    /// Puts a clause in whose first literal is open and whose others are false, and makes that literal true. Those of the hints
    /// of which it is a part leave the watch lists.
    pub(crate) fn put_unit(&mut self, lits: &[Lit], hints: &[u32])
        requires vars { length self.old.arena.watchers ≡ 2 * self.old.trail.vars }
        requires fit { IsFit self.old.trail.vars lits.now }
        requires room { 1 ≤ self.old.arena.clauses_left }
        requires lits_room { length lits.now ≤ self.old.arena.lits_left }
        requires unit { BeginsUnit (lits_of self.old.trail) lits.now }
        requires due { IsDueTo self.old.trail lits.now }
        requires alone { (lit : Lit) → lits.now ≡ lit ∷ [] → self.old.trail.starts ≡ [] }
        requires open { self.old.refuted ≡ None }
        ensures held { (clauses : List (List Lit)) → AreHeld clauses self.old.arena self.old.trail None
            → AreHeld (clauses ++ lits.now ∷ []) self.new.arena self.new.trail self.new.refuted }
        ensures trail { (first : Lit) → slice_get lits.now 0 ≡ Some first → self.new.trail ≡ implied self.old.trail
            first (length self.old.arena.clauses) }
        ensures refuted { self.new.refuted ≡ self.old.refuted }
        ensures watchers { length self.new.arena.watchers ≡ length self.old.arena.watchers }
    {
        let number = enter(&mut self.arena, lits);
        self.trail.are_entries();
        self.trail.imply(&self.arena, lits[0], number);
        drop_supersets(&mut self.arena, hints);
    }
}

/// Takes away the levels above one, and tells the guides each literal that is free again.
pub(crate) fn go_back(trail: &mut Trail, level: u32, guides: &mut Guides)
    requires { level ≤ length trail.old.starts }
    ensures { trail.new ≡ undone trail.old level }
{
    for lit in trail.above(level) {
        guides.freed(*lit, trail.values());
    }
    trail.undo_to(level);
}

// The literals in the place of others.
fn copy(into: &mut Vec<Lit>, lits: &[Lit]) -> Result<(), NoMemory>
    ensures { OnOk result (into.new.items ≡ lits.now) }
{
    into.clear();
    match into.extend_from_slice(lits) {
        Ok(()) => Ok(()),
        Err(_) => Err(NoMemory),
    }
}

// Puts a clause into an arena that has room for it.
fn enter(arena: &mut Arena, lits: &[Lit]) -> ClauseNo
    requires within { AreWithin arena.old lits.now }
    requires distinct { OnlyOnce lits.now }
    requires room { 1 ≤ arena.old.clauses_left }
    requires lits_room { length lits.now ≤ arena.old.lits_left }
    ensures number { result.0 ≡ length arena.old.clauses }
    ensures added { HasAdded arena.old arena.new lits.now }
    ensures watchers { length arena.new.watchers ≡ length arena.old.watchers }
{
    let Ok(number) = arena.add(lits) else {
        unreachable!();
    };
    number
}

// Makes room for as many clauses as there are, as far as memory allows, where none was promised for one of so many literals.
fn make_room(arena: &mut Arena, lits: usize)
    ensures clauses { arena.new.clauses ≡ arena.old.clauses }
    ensures watchers { arena.new.watchers ≡ arena.old.watchers }
{
    if !arena.has_room(1, lits) {
        let many = arena.count() as usize;
        let _ = arena.reserve(many, many.saturating_mul(USUAL));
    }
}
