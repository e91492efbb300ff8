ghost use Rattle.std.specs.Prelude.{◌≡◌, ◌<◌, ◌≤◌, ◌^◌, ◌∷◌, ◌++◌, [], All, Contains, Some, None, true, false, length, IfOk, OnOk, OnErr, IfSome, IfNone, slice_get};
ghost use Rattle.currency_base.specs.Literals.{var_of};
ghost use Rattle.search_trail.specs.Trails.{AreEntries, IsFree, IsScope, assumed, focused, lits_of, undone, whole_scope};
ghost use Rattle.refutation_log.specs.Steps.{clause_of, step_of};
ghost use Rattle.search_state.specs.States.{HasConcluded, HasLearned, HasRefuted, HasTrail, IsExtended, IsFalse, IsFit, IsGround, IsNotBelow, IsQuiet, IsState, true_lits, vars_of};

use crate::learning::{back_of, note_learned, tell_seen};
use crate::search::{Search, go_back};
use crate::steps::{append, conclude, filled};
use clause_arena::ClauseNo;
use conflict_analysis::Analysis;
use currency_base::{Lit, NoMemory};
use refutation_log::{Log, StepRef};
use search_trail::Trail;
use solver_guides::Guides;
use std::alloc::Global;
use std::marker::Model;
use watch_propagate::propagate;

/// The state of a search. Contracts see the steps of its log and its trail.
#[derive(Drop)]
pub struct State {
    log: Log,
    // the clause of each step, under the step's number, and the literals that are true
    search: Search,
    analysis: Analysis,
}

impl Model for State {
    ghost use Rattle.search_state.specs.States.{State as States};
    ghost use Rattle.search_state.specs.Held.{IsKept};
    ghost use Rattle.std.specs.Prelude.{is_some, length};

    ghost Value = { States };

    ghost view = { λ s. record {
      frame = record { answers = s.log.answers; statements = s.log.statements };
      steps = s.log.steps;
      trail = s.search.trail;
      refuted = is_some s.search.refuted;
    } };

    ghost invariant = { λ s. IsKept (length s.log.statements) s.log.steps s.search.arena s.search.trail
        s.search.refuted s.analysis.vars };
}

impl State {
    /// The state where nothing is assumed, over a log. Its statements are the variables, and all are of the scope.
    pub fn new(alloc: Global, log: Log) -> Result<State, NoMemory>
        requires few { length log.statements ≤ 2 ^ 31 }
        requires fit { All (λ step. IsFit (length log.statements) (clause_of step)) log.steps }
        ensures ground { IfOk result (λ s. IsGround s (record { answers = log.answers; statements = log.statements }) log.steps) }
        ensures scope { IfOk result (λ s. s.trail.scope ≡ whole_scope (length log.statements)) }
    {
        let vars = log.statements.len() as u32;
        let Ok(analysis) = Analysis::new(alloc, vars) else {
            return Err(NoMemory);
        };
        let Ok(search) = filled(alloc, vars, &log.steps) else {
            return Err(NoMemory);
        };
        Ok(State {
            log,
            search,
            analysis,
        })
    }

    /// The log.
    pub fn log(&self) -> &Log
        ensures answers { result.now.answers ≡ self.now.frame.answers }
        ensures statements { result.now.statements ≡ self.now.frame.statements }
        ensures steps { result.now.steps ≡ self.now.steps }
    {
        &self.log
    }

    /// How many steps there are.
    pub fn count(&self) -> u32
        ensures { result ≡ length self.now.steps }
    {
        self.search.arena.count()
    }

    /// The literals that are true, where levels begin, and the scope.
    pub fn trail(&self) -> &Trail
        ensures { result.now ≡ self.now.trail }
    {
        &self.search.trail
    }

    /// The log, which is all that is left.
    pub fn into_log(self) -> Log
        ensures answers { result.answers ≡ self.frame.answers }
        ensures statements { result.statements ≡ self.frame.statements }
        ensures steps { result.steps ≡ self.steps }
    {
        self.log
    }

    /// No work: the caller learns what is true at any moment.
    pub fn is_state(&self)
        ensures { IsState self.now }
    {
        self.search.arena.are_watchers();
        self.search.trail.are_entries();
    }

    /// Takes another scope, in time in proportion to it. A refusal changes nothing.
    pub fn focus(&mut self, alloc: Global, scope: &[u32]) -> Result<(), NoMemory>
        requires { IsScope (vars_of self.old) scope.now }
        ensures ok { OnOk result (HasTrail self.old self.new (focused self.old.trail scope.now)) }
        ensures err { OnErr result (self.new ≡ self.old) }
    {
        let Ok(()) = self.search.trail.focus(alloc, scope) else {
            return Err(NoMemory);
        };
        Ok(())
    }

    /// Puts a step after the others, where nothing is assumed. A refusal changes nothing.
    pub fn add(&mut self, step: StepRef<'_>) -> Result<(), NoMemory>
        requires ground { self.old.trail.starts ≡ [] }
        requires fit { IsFit (vars_of self.old) (clause_of (step_of step)) }
        ensures ok { OnOk result (IsGround self.new self.old.frame (self.old.steps ++ step_of step.entry ∷ [])) }
        ensures scope { self.new.trail.scope ≡ self.old.trail.scope }
        ensures err { OnErr result (self.new ≡ self.old) }
    {
        let Ok(()) = append(&mut self.log.steps, &mut self.search, step) else {
            return Err(NoMemory);
        };
        Ok(())
    }

    /// Makes each literal true that is implied, at the current level. Answers a step whose clause is false, if there is one.
    /// Takes no memory.
    pub fn propagate(&mut self) -> Option<u32>
        ensures extended { IsExtended self.old self.new }
        ensures conflict { IfSome result (λ place. IsFalse self.new place) }
        ensures level { IfSome result (λ place. 0 < length self.new.trail.starts → IsNotBelow self.new place) }
        ensures quiet { IfNone result (IsQuiet self.new (true_lits self.new)) }
        ensures gone { IfNone result (self.new.trail.gone ≡ length self.new.trail.entries) }
        ensures open { IfNone result (self.new.refuted ≡ false) }
    {
        if let Some(place) = self.search.refuted {
            return Some(place);
        }
        self.search.trail.are_entries();
        let Some(clause) = propagate(&mut self.search.arena, &mut self.search.trail) else {
            return None;
        };
        self.search.arena.are_watchers();
        self.search.trail.are_entries();
        Some(clause.0)
    }

    /// Opens a level with a literal of a free variable, where all that is implied is true. Takes no memory.
    pub fn assume(&mut self, lit: Lit)
        requires within { var_of lit < vars_of self.old }
        requires free { IsFree self.old.trail (var_of lit) }
        requires gone { self.old.trail.gone ≡ length self.old.trail.entries }
        requires open { self.old.refuted ≡ false }
        ensures { HasTrail self.old self.new (assumed self.old.trail lit) }
    {
        self.search.trail.are_entries();
        self.search.trail.assume(lit);
    }

    /// Takes away the levels above one, and tells the guides each literal that is free again. Takes no memory.
    pub fn undo_to(&mut self, level: u32, guides: &mut Guides)
        requires { level ≤ length self.old.trail.starts }
        ensures { HasTrail self.old self.new (undone self.old.trail level) }
    {
        self.search.trail.are_entries();
        go_back(&mut self.search.trail, level, guides);
    }

    /// Learns a counted clause from a step whose clause is false, goes back to where it implies a literal, and makes that
    /// true. Tells the guides the variables that were met. A refusal changes nothing.
    pub fn learn(&mut self, conflict: u32, guides: &mut Guides) -> Result<(), NoMemory>
        requires deep { 0 < length self.old.trail.starts }
        requires conflict { IsFalse self.old conflict }
        requires level { IsNotBelow self.old conflict }
        requires open { self.old.refuted ≡ false }
        ensures ok { OnOk result (HasLearned self.old self.new) }
        ensures err { OnErr result (self.new ≡ self.old) }
    {
        self.search.arena.are_watchers();
        self.search.trail.are_entries();
        let Ok(()) = self
            .analysis
            .learn(&self.search.arena, &self.search.trail, ClauseNo(conflict))
        else {
            return Err(NoMemory);
        };
        let Ok(()) = note_learned(&mut self.log.steps, &mut self.search, &self.analysis) else {
            return Err(NoMemory);
        };
        tell_seen(&self.analysis, &self.search.trail, guides);
        go_back(&mut self.search.trail, back_of(&self.analysis), guides);
        self.search
            .put_unit(self.analysis.lits(), self.analysis.hints());
        Ok(())
    }

    /// Derives a clause of negations of assumed literals from a step whose clause is false, goes back to where nothing is
    /// assumed, and adds it. Answers its place. After a refusal the steps are as before.
    pub fn refute(&mut self, conflict: u32, guides: &mut Guides) -> Result<u32, NoMemory>
        requires conflict { IsFalse self.old conflict }
        ensures frame { self.new.frame ≡ self.old.frame }
        ensures scope { self.new.trail.scope ≡ self.old.trail.scope }
        ensures ok { OnOk result (HasRefuted self.old self.new) }
        ensures place { IfOk result (λ place. place ≡ length self.old.steps) }
        ensures err { OnErr result (self.new.steps ≡ self.old.steps) }
    {
        self.search.trail.are_entries();
        let Ok(()) = self
            .analysis
            .explain_conflict(&self.search.arena, &self.search.trail, ClauseNo(conflict))
        else {
            return Err(NoMemory);
        };
        go_back(&mut self.search.trail, 0, guides);
        let Ok(place) = conclude(&mut self.log.steps, &mut self.search, &self.analysis) else {
            return Err(NoMemory);
        };
        Ok(place)
    }

    /// Derives the clause of one literal that is true while nothing is assumed, and adds it. Answers its place. After a
    /// refusal the steps are as before.
    pub fn derive(&mut self, lit: Lit) -> Result<u32, NoMemory>
        requires ground { self.old.trail.starts ≡ [] }
        requires holds { Contains (true_lits self.old) lit }
        ensures frame { self.new.frame ≡ self.old.frame }
        ensures scope { self.new.trail.scope ≡ self.old.trail.scope }
        ensures ok { OnOk result (HasConcluded self.old self.new (lit ∷ [])) }
        ensures place { IfOk result (λ place. place ≡ length self.old.steps) }
        ensures err { OnErr result (self.new.steps ≡ self.old.steps) }
    {
        let Ok(()) = self
            .analysis
            .explain_literal(&self.search.arena, &self.search.trail, lit)
        else {
            return Err(NoMemory);
        };
        let Ok(place) = conclude(&mut self.log.steps, &mut self.search, &self.analysis) else {
            return Err(NoMemory);
        };
        Ok(place)
    }
}
