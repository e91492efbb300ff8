ghost use Rattle.std.specs.Prelude.{◌≡◌, ◌+◌, ◌<◌, ◌≤◌, ◌^◌, ◌∷◌, ◌++◌, [], All, true, false, length, Ok, IsErr, IfOk, OnOk, OnErr, IfSome};
ghost use Rattle.currency_base.specs.Literals.{var_of};
ghost use Rattle.search_trail.specs.Trails.{IsScope, values_of, whole_scope};
ghost use Rattle.refutation_log.specs.Follows.{FollowsFrom};
ghost use Rattle.refutation_log.specs.Steps.{clause_of, clauses_of, label_of};
ghost use Rattle.refutation_log.specs.declared.step.Step.TheVariants.{Learn};
ghost use Rattle.refutation_log.specs.Counted.{counted_steps};
ghost use Rattle.lean_hints.specs.Lean.{AreLean};
ghost use Rattle.search_state.specs.States.{IsFit};
ghost use Rattle.watch_solver.specs.Decided.{AreTruths, HasGrown, IsDue, Shows, axiom_step};
ghost use Rattle.watch_solver.specs.declared.found.Found.TheVariants.{Spent};

use crate::decision::decided;
use crate::model::truths_of;
use crate::{Budget, Found};
use currency_base::{Assignment, Lit, NoMemory};
use refutation_log::{LabelRef, Log, StepRef};
use search_state::State;
use search_trail::Trail;
use solver_guides::Guides;
use std::alloc::Global;
use std::marker::Model;

/// A solver over the variables and clauses of a log: its statements and the clauses of its steps. Contracts see the log,
/// the trail, and whether a call was refused memory.
#[derive(Drop)]
pub struct Solver {
    state: State,
    failed: bool,
}

impl Model for Solver {
    ghost use Rattle.watch_solver.specs.Decided.{Solver as Solvers};

    ghost Value = { Solvers };

    ghost view = { λ s. record {
      frame = s.state.frame;
      steps = s.state.steps;
      trail = s.state.trail;
      failed = s.failed;
    } };
}

impl Solver {
    /// A solver over a log. Its statements are fewer than literals have numbers for, and all are of the scope.
    pub fn new(alloc: Global, log: Log) -> Result<Solver, NoMemory>
        requires few { length log.statements ≤ 2 ^ 31 }
        requires fit { All (λ step. IsFit (length log.statements) (clause_of step)) log.steps }
        ensures answers { IfOk result (λ s. s.frame.answers ≡ log.answers) }
        ensures statements { IfOk result (λ s. s.frame.statements ≡ log.statements) }
        ensures steps { IfOk result (λ s. s.steps ≡ log.steps) }
        ensures scope { IfOk result (λ s. s.trail.scope ≡ whole_scope (length log.statements)) }
        ensures failed { IfOk result (λ s. s.failed ≡ false) }
    {
        let Ok(state) = State::new(alloc, log) else {
            return Err(NoMemory);
        };
        Ok(Solver {
            state,
            failed: false,
        })
    }

    /// The log.
    pub fn log(&self) -> &Log
        ensures answers { result.now.answers ≡ self.now.frame.answers }
        ensures statements { result.now.statements ≡ self.now.frame.statements }
        ensures steps { result.now.steps ≡ self.now.steps }
    {
        self.state.log()
    }

    /// The trail as the last call left it.
    pub fn trail(&self) -> &Trail
        ensures { result.now ≡ self.now.trail }
    {
        self.state.trail()
    }

    /// The truths of the trail as the last call left it: a variable that has no value is false. Takes time in proportion
    /// to all variables.
    pub fn truths(&self, alloc: Global) -> Result<Assignment, NoMemory>
        ensures { IfOk result (AreTruths (values_of self.now.trail).given) }
    {
        truths_of(alloc, self.state.trail().values())
    }

    /// No work: the caller learns what holds at any moment.
    pub fn is_solver(&self)
        ensures vars { self.now.trail.vars ≡ length self.now.frame.statements }
        ensures fit { All (λ step. IsFit (length self.now.frame.statements) (clause_of step)) self.now.steps }
    {
        self.state.is_state();
    }

    /// Goes back to where nothing is assumed, and makes true there what unit propagation finds. Steps stay, and no memory
    /// is taken.
    pub fn propagate_at_root(&mut self, guides: &mut Guides)
        ensures frame { self.new.frame ≡ self.old.frame }
        ensures scope { self.new.trail.scope ≡ self.old.trail.scope }
        ensures steps { self.new.steps ≡ self.old.steps }
        ensures failed { self.new.failed ≡ self.old.failed }
    {
        self.state.undo_to(0, guides);
        self.state.propagate();
    }

    /// The log, which is all that is left.
    pub fn into_log(self) -> Log
        ensures answers { result.answers ≡ self.frame.answers }
        ensures statements { result.statements ≡ self.frame.statements }
        ensures steps { result.steps ≡ self.steps }
    {
        self.state.into_log()
    }

    /// Adds the step of an axiom, counted where the search brought it in. After a first refusal every later call is refused.
    pub fn add_clause(
        &mut self,
        label: LabelRef<'_>,
        lits: &[Lit],
        counted: bool,
        guides: &mut Guides,
    ) -> Result<(), NoMemory>
        requires fit { IsFit (length self.old.frame.statements) lits.now }
        ensures frame { self.new.frame ≡ self.old.frame }
        ensures scope { self.new.trail.scope ≡ self.old.trail.scope }
        ensures ok { OnOk result (self.new.steps ≡ self.old.steps ++ axiom_step (label_of label.entry) lits.now counted ∷ []) }
        ensures err { OnErr result (self.new.steps ≡ self.old.steps) }
        ensures failed { self.old.failed ≡ true → IsErr result }
        ensures fails { OnErr result (self.new.failed ≡ true) }
        ensures succeeds { OnOk result (self.new.failed ≡ false) }
    {
        if self.failed {
            return Err(NoMemory);
        }
        let step = if counted {
            StepRef::OnDemand { label, lits }
        } else {
            StepRef::Axiom { label, lits }
        };
        self.state.undo_to(0, guides);
        let added = self.state.add(step);
        self.failed = added.is_err();
        added
    }

    /// Adds the step of a clause that follows from the steps with its hints, no hint twice, and each but the last adds a
    /// literal; where nothing is assumed. It is not counted. Answers its place. After a first refusal every later call is
    /// refused.
    pub fn add_derived(
        &mut self,
        lits: &[Lit],
        hints: &[u32],
        guides: &mut Guides,
    ) -> Result<u32, NoMemory>
        requires fit { IsFit (length self.old.frame.statements) lits.now }
        requires follows { FollowsFrom (clauses_of self.old.steps) lits.now hints.now }
        requires lean { AreLean (clauses_of self.old.steps) lits.now hints.now }
        ensures frame { self.new.frame ≡ self.old.frame }
        ensures scope { self.new.trail.scope ≡ self.old.trail.scope }
        ensures ok { OnOk result (self.new.steps ≡ self.old.steps ++ Learn lits.now hints.now false ∷ []) }
        ensures place { IfOk result (λ place. place ≡ length self.old.steps) }
        ensures err { OnErr result (self.new.steps ≡ self.old.steps) }
        ensures failed { self.old.failed ≡ true → IsErr result }
        ensures fails { OnErr result (self.new.failed ≡ true) }
        ensures succeeds { OnOk result (self.new.failed ≡ false) }
    {
        if self.failed {
            return Err(NoMemory);
        }
        self.state.undo_to(0, guides);
        let place = self.state.count();
        let step = StepRef::Learn {
            lits,
            hints,
            counted: false,
        };
        match self.state.add(step) {
            Ok(()) => Ok(place),
            Err(error) => {
                self.failed = true;
                Err(error)
            }
        }
    }

    /// Goes back to where nothing is assumed, and takes another scope: from then on variables of it alone are assumed,
    /// beside the goal's. The guides are told, where it is another. Takes time in proportion to both scopes and to what is taken
    /// back. After a first refusal every later call is refused.
    pub fn focus(
        &mut self,
        alloc: Global,
        scope: &[u32],
        guides: &mut Guides,
    ) -> Result<(), NoMemory>
        requires { IsScope (length self.old.frame.statements) scope.now }
        ensures frame { self.new.frame ≡ self.old.frame }
        ensures steps { self.new.steps ≡ self.old.steps }
        ensures scope { OnOk result (self.new.trail.scope ≡ scope.now) }
        ensures root { OnOk result (self.new.trail.starts ≡ []) }
        ensures err { OnErr result (self.new.trail.scope ≡ self.old.trail.scope) }
        ensures failed { self.old.failed ≡ true → IsErr result }
        ensures fails { OnErr result (self.new.failed ≡ true) }
        ensures succeeds { OnOk result (self.new.failed ≡ false) }
    {
        if self.failed {
            return Err(NoMemory);
        }
        if self.state.trail().values().scope() == scope {
            self.state.undo_to(0, guides);
            return Ok(());
        }
        guides.leave(self.state.trail().values().scope());
        let focused = self.state.focus(alloc, scope);
        self.state.undo_to(0, guides);
        guides.enter(self.state.trail().values().scope());
        self.failed = focused.is_err();
        focused
    }

    /// Decides whether the clauses imply the goal, or, where there is none, whether they have a model on the scope
    /// (conflict-driven clause learning: Marques-Silva, Sakallah, 1999): literals of variables of the scope alone are
    /// assumed, and the goal's negation. Each clause that is learned on the way takes a unit of the budget. No step of it
    /// costs more than the scope, what is propagated and the conflict do. After a first refusal every later call is refused.
    pub fn decide(
        &mut self,
        goal: Option<Lit>,
        budget: &mut Budget,
        guides: &mut Guides,
    ) -> Result<Found, NoMemory>
        requires { IfSome goal (λ lit. var_of lit < length self.old.frame.statements) }
        ensures frame { self.new.frame ≡ self.old.frame }
        ensures scope { self.new.trail.scope ≡ self.old.trail.scope }
        ensures grown { HasGrown (length self.old.frame.statements) self.old.steps self.new.steps }
        ensures units { counted_steps self.new.steps + budget.new ≡ counted_steps self.old.steps + budget.old }
        ensures found { IfOk result (Shows self.new goal budget.new) }
        ensures spent { budget.new ≡ 0 → IsDue self.new.steps goal self.new.trail → IfOk result (λ found. found ≡ Spent) }
        ensures failed { self.old.failed ≡ true → IsErr result }
        ensures fails { OnErr result (self.new.failed ≡ true) }
        ensures succeeds { OnOk result (self.new.failed ≡ false) }
    {
        if self.failed {
            return Err(NoMemory);
        }
        let found = decided(&mut self.state, goal, budget, guides);
        self.failed = found.is_err();
        found
    }
}
