ghost use Rattle.std.specs.Prelude.{◌≡◌, ◌<◌, ◌≤◌, ◌+◌, ◌*◌, ◌^◌, ◌∷◌, ◌++◌, [], List, Some, true, length, map, replicate, option_map, slice_get, IsOk, IfOk, IfSome, OnOk, OnErr};
ghost use Rattle.std.specs.List.{filter};
ghost use Rattle.currency_base.specs.Lists.{OnlyOnce};
ghost use Rattle.currency_base.specs.declared.lit.Lit.{Lit};
ghost use Rattle.watch_links.specs.Links.{IsIn, coming_after, head_of, following};
ghost use Rattle.clause_arena.specs.Arenas.{AreWatchers, AreWithin, IsWatched, MovesWatch, is_other, watchers_of, watching};

use crate::ClauseNo;
use crate::clause_lits::ClauseLits;
use crate::leaving::drop_from;
use crate::watches::{
    clause_at, exchange, lit_of, owner_of, push_links, side_by, slot_by, slot_of,
};
use currency_base::{Lit, NoMemory};
use std::alloc::Global;
use std::marker::Model;
use watch_links::WatchLinks;

/// Clauses, each a list of literals, of which no literal stands twice. A clause of two literals or more watches
/// its first two. Contracts see the clauses, for each literal the clauses that watch it, and for how many more
/// clauses and literals there is room. Beside its literals a clause takes twenty bytes: sixteen of its head, which has
/// the two watched literals, and for each of them a link to its next watcher; and four for where its literals end.
#[derive(Drop)]
pub struct Arena {
    clauses: ClauseLits,
    // the two watches of a clause are slots, which stand side by side: the clause's head; an owner of slots is a literal
    links: WatchLinks,
    // the room that is still promised: what there is may be more
    clauses_left: usize,
    lits_left: usize,
}

impl Model for Arena {
    ghost use Rattle.clause_arena.specs.Arenas.{Arena as Arenas};

    ghost Value = { Arenas };

    ghost use Rattle.clause_arena.specs.Slots.{IsArena, clauses_of};

    ghost view = { λ a. record {
      clauses = a.clauses.lists;
      watchers = clauses_of a.links.lists;
      clauses_left = a.clauses_left;
      lits_left = a.lits_left;
    } };

    ghost invariant = { λ a. IsArena a.clauses a.links a.clauses_left a.lits_left };
}

impl Arena {
    /// No clause, over so many variables. It is also refused at 2^31 variables: their literals are too many for
    /// their numbers.
    pub fn new(alloc: Global, vars: u32) -> Result<Arena, NoMemory>
        requires { vars ≤ 2 ^ 31 }
        ensures clauses { IfOk result (λ a. a.clauses ≡ []) }
        ensures watchers { IfOk result (λ a. a.watchers ≡ replicate (2 * vars) []) }
    {
        let Some(owners) = vars.checked_mul(2) else {
            return Err(NoMemory);
        };
        let Ok(links) = WatchLinks::new(alloc, owners) else {
            return Err(NoMemory);
        };
        Ok(Arena {
            clauses: ClauseLits::new(alloc),
            links,
            clauses_left: 0,
            lits_left: 0,
        })
    }

    /// Was room promised for so many more clauses, and for so many more literals in them?
    pub fn has_room(&self, clauses: usize, lits: usize) -> bool
        ensures clauses { result ≡ true → clauses ≤ self.now.clauses_left }
        ensures lits { result ≡ true → lits ≤ self.now.lits_left }
    {
        clauses <= self.clauses_left && lits <= self.lits_left
    }

    /// Makes room for so many more clauses, and for so many more literals in them, unless it was promised. It is refused where
    /// memory runs out or they would have no numbers; a refusal changes nothing else.
    pub fn reserve(&mut self, clauses: usize, lits: usize) -> Result<(), NoMemory>
        ensures clauses { self.new.clauses ≡ self.old.clauses }
        ensures watchers { self.new.watchers ≡ self.old.watchers }
        ensures ok_clauses { OnOk result (clauses ≤ self.new.clauses_left) }
        ensures ok_lits { OnOk result (lits ≤ self.new.lits_left) }
        ensures stays_clauses { self.old.clauses_left ≤ self.new.clauses_left }
        ensures stays_lits { self.old.lits_left ≤ self.new.lits_left }
    {
        if self.has_room(clauses, lits) {
            return Ok(());
        }
        let Ok(()) = self.clauses.reserve(clauses, lits) else {
            return Err(NoMemory);
        };
        let Ok(()) = self.links.reserve(clauses) else {
            return Err(NoMemory);
        };
        self.clauses_left = self.clauses_left.max(clauses);
        self.lits_left = self.lits_left.max(lits);
        Ok(())
    }

    /// Puts a clause after the others; one of two literals or more watches its first two. It is not refused
    /// within the room that there is. A refusal changes nothing.
    pub fn add(&mut self, lits: &[Lit]) -> Result<ClauseNo, NoMemory>
        requires within { AreWithin self.old lits.now }
        requires distinct { OnlyOnce lits.now }
        ensures number { IfOk result (λ no. no.0 ≡ length self.old.clauses) }
        ensures clauses { OnOk result (self.new.clauses ≡ self.old.clauses ++ lits.now ∷ []) }
        ensures watchers { OnOk result (self.new.watchers ≡ watching self.old.watchers lits.now (length self.old.clauses)) }
        ensures room { 0 < self.old.clauses_left → length lits.now ≤ self.old.lits_left → IsOk result }
        ensures clauses_left { OnOk result (self.old.clauses_left ≤ self.new.clauses_left + 1) }
        ensures lits_left { OnOk result (self.old.lits_left ≤ self.new.lits_left + length lits.now) }
        ensures err { OnErr result (self.new ≡ self.old) }
    {
        let Ok(()) = self.clauses.reserve(1, lits.len()) else {
            return Err(NoMemory);
        };
        let Ok(()) = push_links(&mut self.links, lits) else {
            return Err(NoMemory);
        };
        self.links.are_whole();
        let number = self.clauses.len() as u32;
        self.clauses.push(lits);
        self.clauses_left = self.clauses_left.saturating_sub(1);
        self.lits_left = self.lits_left.saturating_sub(lits.len());
        Ok(ClauseNo(number))
    }

    /// How many clauses there are. Takes no memory, and no call below does.
    pub fn count(&self) -> u32
        ensures { result ≡ length self.now.clauses }
    {
        self.clauses.len() as u32
    }

    /// The literals of a clause.
    pub fn lits(&self, clause: ClauseNo) -> &[Lit]
        requires { clause.0 < length self.now.clauses }
        ensures { slice_get self.now.clauses clause.0 ≡ Some result.now }
    {
        self.clauses.get(clause.0 as usize)
    }

    /// The first clause that watches a literal.
    pub fn first_watcher(&self, lit: Lit) -> Option<ClauseNo>
        requires { AreWithin self.now (lit ∷ []) }
        ensures { option_map (λ no. no.0) result ≡ head_of (watchers_of self.now lit) }
    {
        clause_at(self.links.first(owner_of(lit)))
    }

    /// The clause that watches a literal next after one that does. Takes constant time.
    pub fn next_watcher(&self, lit: Lit, clause: ClauseNo) -> Option<ClauseNo>
        requires { IsIn clause.0 (watchers_of self.now lit) }
        ensures { option_map (λ no. no.0) result ≡ following clause.0 (watchers_of self.now lit) }
    {
        let side = side_by(&self.links, clause, lit);
        clause_at(self.links.next(slot_of(clause, side)))
    }

    /// At which of its first two places a clause has a literal that it watches: 0 or 1. Reads the clause's head alone.
    pub fn side(&self, lit: Lit, clause: ClauseNo) -> usize
        requires { IsIn clause.0 (watchers_of self.now lit) }
        ensures low { result < 2 }
        ensures here { (lits : List Lit) → slice_get self.now.clauses clause.0 ≡ Some lits → slice_get lits result ≡ Some lit }
    {
        side_by(&self.links, clause, lit)
    }

    /// The first literal of a clause that is watched (side 0), or the second (side 1). Reads the clause's head alone, which has
    /// copies of the two.
    pub fn watched(&self, clause: ClauseNo, side: usize) -> Lit
        requires watched { IsWatched self.now clause.0 }
        requires low { side < 2 }
        ensures { (lits : List Lit) → slice_get self.now.clauses clause.0 ≡ Some lits → slice_get lits side ≡ Some result }
    {
        lit_of(self.links.owner(slot_of(clause, side)))
    }

    /// Moves a watch of a clause from its first or second literal to another, with which this one changes
    /// places. Who walks over the literal's watchers knows the one before the clause, if there is one: behind it the clause is
    /// cut out. Takes constant time.
    pub fn move_watch(&mut self, before: Option<ClauseNo>, clause: ClauseNo, from: usize, to: usize)
        requires watched { IsWatched self.old clause.0 }
        requires before { (lits : List Lit) → (left : Lit) → slice_get self.old.clauses clause.0 ≡ Some lits
            → slice_get lits from ≡ Some left
            → coming_after (option_map (λ no. no.0) before) (watchers_of self.old left) ≡ Some clause.0 }
        requires from { from < 2 }
        requires to { 2 ≤ to }
        requires within { IfSome (slice_get self.old.clauses clause.0) (λ lits. to < length lits) }
        ensures moved { MovesWatch self.old self.new clause.0 from to }
        ensures clauses_left { self.new.clauses_left ≡ self.old.clauses_left }
        ensures lits_left { self.new.lits_left ≡ self.old.lits_left }
    {
        let lits = self.clauses.get(clause.0 as usize);
        let lit = lits[from];
        let left = owner_of(lit);
        let taken = owner_of(lits[to]);
        let slot = slot_of(clause, from);
        let behind = slot_by(&self.links, before, lit);
        self.links.cut(behind, slot, left);
        exchange(&mut self.clauses, clause.0 as usize, from, to);
        self.links.attach(slot, taken);
    }

    /// Takes a clause of two literals or more off the watch lists, if it is watched; it stays among the clauses. Takes time in
    /// proportion to the watchers of its first two literals.
    pub fn leave(&mut self, clause: ClauseNo)
        requires clause { clause.0 < length self.old.clauses }
        requires long { IfSome (slice_get self.old.clauses clause.0) (λ lits. 2 ≤ length lits) }
        ensures clauses { self.new.clauses ≡ self.old.clauses }
        ensures watchers { self.new.watchers ≡ map (filter (is_other clause.0)) self.old.watchers }
        ensures clauses_left { self.new.clauses_left ≡ self.old.clauses_left }
        ensures lits_left { self.new.lits_left ≡ self.old.lits_left }
    {
        let lits = self.clauses.get(clause.0 as usize);
        let first = owner_of(lits[0]);
        let second = owner_of(lits[1]);
        drop_from(&mut self.links, clause.0, first);
        drop_from(&mut self.links, clause.0, second);
    }

    /// No work: the caller learns what is true of the watchers at any moment.
    pub fn are_watchers(&self)
        ensures { AreWatchers self.now }
    {
        self.links.are_whole();
    }
}
