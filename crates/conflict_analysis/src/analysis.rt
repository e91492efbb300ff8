ghost use Rattle.std.specs.Prelude.{◌≡◌, ◌<◌, ◌*◌, ◌^◌, ◌≤◌, ◌∷◌, [], Contains, length, IfOk, OnOk};
ghost use Rattle.search_trail.specs.Trails.{lits_of};
ghost use Rattle.watch_propagate.specs.WatchRule.{AreReasons};
ghost use Rattle.conflict_analysis.specs.Analyses.{AreOfAssumed, IsDerived, IsFalsified, IsLearned, IsOfLevel};

use crate::learning::{explain_clause, explain_unit, learn_clause};
use crate::resolution::Resolution;
use clause_arena::{Arena, ClauseNo};
use currency_base::{Lit, NoMemory};
use search_trail::Trail;
use std::alloc::Global;
use std::marker::Model;

/// What was last learned from a conflict, and the room in which conflicts are analysed. Contracts see the clause, its
/// hints, the level to which it leads back, and the places of the trail's literals that were resolved.
#[derive(Drop)]
pub struct Analysis {
    found: Resolution,
    lits: Vec<Lit>,
    hints: Vec<u32>,
    back: u32,
}

impl Model for Analysis {
    ghost use Rattle.conflict_analysis.specs.Analyses.{Learned};
    ghost use Rattle.std.specs.Prelude.{length};

    ghost Value = { Learned };

    ghost view = { λ a. record {
      vars = length a.found.seen;
      lits = a.lits.items;
      hints = a.hints.items;
      back = a.back;
      resolved = a.found.resolved;
    } };
}

impl Analysis {
    /// Room for so many variables, and nothing learned.
    pub fn new(alloc: Global, vars: u32) -> Result<Analysis, NoMemory>
        ensures vars { IfOk result (λ a. a.vars ≡ vars) }
    {
        let found = Resolution::new(alloc, vars)?;
        Ok(Analysis {
            found,
            lits: Vec::new(alloc),
            hints: Vec::new(alloc),
            back: 0,
        })
    }

    /// The literals of the clause.
    pub fn lits(&self) -> &[Lit]
        ensures { result.now ≡ self.now.lits }
    {
        &self.lits
    }

    /// The numbers of the clauses by which it follows, in the order in which they are used.
    pub fn hints(&self) -> &[u32]
        ensures { result.now ≡ self.now.hints }
    {
        &self.hints
    }

    /// The level to which the clause leads back.
    pub fn back(&self) -> u32
        ensures { result ≡ self.now.back }
    {
        self.back
    }

    /// The places of the trail's literals that were resolved, ascending.
    pub fn resolved(&self) -> &[u32]
        ensures { result.now ≡ self.now.resolved }
    {
        self.found.resolved()
    }

    /// Does the literal at such a place lead from the conflict to the clause? Others are between a literal that was left
    /// out and those that imply it.
    pub fn leads(&self, place: u32) -> bool {
        self.found.leads(place)
    }

    /// Learns a clause from a conflict at the current level, which is not 0, by the first unique implication point
    /// (Zhang, Madigan, Moskewicz, Malik, 2001): literals of that level are resolved with their reasons, the last one
    /// first, until one is left. Literals that the others imply through any number of reasons are resolved too (Sörensson,
    /// Biere, 2009), and so is what is between, and what holds at level 0, so that the hints tell all that was used: no
    /// hint twice, and each but the last adds a literal. The clause has the literal of the current level first, and of the
    /// others one of the highest level second.
    pub fn learn(
        &mut self,
        arena: &Arena,
        trail: &Trail,
        conflict: ClauseNo,
    ) -> Result<(), NoMemory>
        requires vars { self.old.vars ≡ trail.now.vars }
        requires fits { length arena.now.watchers ≡ 2 * trail.now.vars }
        requires reasons { AreReasons arena.now trail.now.entries }
        requires deep { 0 < length trail.now.starts }
        requires conflict { IsFalsified arena.now trail.now conflict.0 }
        requires level { IsOfLevel arena.now trail.now conflict.0 }
        ensures vars { self.new.vars ≡ self.old.vars }
        ensures learned { OnOk result (IsLearned arena.now trail.now self.new) }
    {
        self.back = learn_clause(
            &mut self.found,
            &mut self.lits,
            &mut self.hints,
            arena,
            trail,
            conflict,
        )?;
        Ok(())
    }

    /// Derives a clause from a conflict by resolving each literal that was implied: what is left are negations of
    /// assumed literals.
    pub fn explain_conflict(
        &mut self,
        arena: &Arena,
        trail: &Trail,
        conflict: ClauseNo,
    ) -> Result<(), NoMemory>
        requires vars { self.old.vars ≡ trail.now.vars }
        requires fits { length arena.now.watchers ≡ 2 * trail.now.vars }
        requires reasons { AreReasons arena.now trail.now.entries }
        requires conflict { IsFalsified arena.now trail.now conflict.0 }
        ensures vars { self.new.vars ≡ self.old.vars }
        ensures derived { OnOk result (IsDerived arena.now trail.now self.new.lits self.new.hints) }
        ensures assumed { OnOk result (AreOfAssumed trail.now self.new.lits) }
    {
        explain_clause(
            &mut self.found,
            &mut self.lits,
            &mut self.hints,
            arena,
            trail,
            conflict,
        )
    }

    /// Derives the clause of one literal that is true while nothing is assumed.
    pub fn explain_literal(
        &mut self,
        arena: &Arena,
        trail: &Trail,
        lit: Lit,
    ) -> Result<(), NoMemory>
        requires vars { self.old.vars ≡ trail.now.vars }
        requires fits { length arena.now.watchers ≡ 2 * trail.now.vars }
        requires reasons { AreReasons arena.now trail.now.entries }
        requires ground { trail.now.starts ≡ [] }
        requires holds { Contains (lits_of trail.now) lit }
        ensures vars { self.new.vars ≡ self.old.vars }
        ensures derived { OnOk result (IsDerived arena.now trail.now self.new.lits self.new.hints) }
        ensures unit { OnOk result (self.new.lits ≡ lit ∷ []) }
    {
        explain_unit(
            &mut self.found,
            &mut self.lits,
            &mut self.hints,
            arena,
            trail,
            lit,
        )
    }
}
