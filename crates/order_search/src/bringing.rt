ghost use Rattle.std.specs.Prelude.{◌≡◌, ◌≢◌, ◌≤◌, ◌<◌, ◌∷◌, ◌++◌, ℕ, Bool, List, [], All, length, take, OnOk, OnErr};
ghost use Rattle.refutation_log.specs.Counted.{counted_steps};
ghost use Rattle.refutation_log.specs.Steps.{step_of};
ghost use Rattle.completion_build.specs.Ranked.{IsCycle};
ghost use Rattle.order_search.specs.Kept.{AreTrueOn, Brings, HasAdded, HasAxioms, HaveThrees, IsFitAxiom, IsHeld, IsMarked, IsOfList, unmarked, vars_of};
ghost use Rattle.order_search.specs.Tied.{KeepsTied};

use crate::lasting::add_lasts;
use crate::progress::Progress;
use crate::subject::Subject;
use completion_build::{Cycle, CycleList};
use currency_base::NoMemory;
use order_literals::one_literal;
use refutation_log::{StepRef, Steps};
use solver_guides::Guides;
use std::alloc::Global;
use watch_solver::Solver;

/// Brings in the list of each cycle: all its axioms on three rows.
pub(crate) fn bring_all(
    subject: &Subject<'_>,
    progress: &mut Progress,
    alloc: Global,
    cycles: &CycleList,
    guides: &mut Guides,
) -> Result<(), NoMemory>
    requires held { IsHeld subject.now progress.old.solver progress.old.brought.items }
    requires cycles { All (IsOfList subject.now) cycles.now }
    ensures held { IsHeld subject.now progress.new.solver progress.new.brought.items }
    ensures added { HasAdded progress.old.solver progress.new.solver }
    ensures scope { progress.new.solver.trail.scope ≡ progress.old.solver.trail.scope }
    ensures tied { KeepsTied subject.now progress.old.solver.steps progress.new.solver.steps }
    ensures units { counted_steps progress.new.solver.steps ≡ counted_steps progress.old.solver.steps }
    ensures fewer { OnOk result ((truths : List Bool) → All (AreTrueOn subject.now truths progress.old.solver.steps) cycles.now
        → All (IsCycle subject.now.spec.relations (vars_of subject.now) truths) cycles.now → cycles.now ≢ []
        → unmarked progress.new.brought.items < unmarked progress.old.brought.items) }
{
    for place in 0..cycles.len() {
        let cycle = *cycles.get(place);
        match bring_in(subject, progress, alloc, cycle, guides) {
            Ok(()) => {}
            Err(error) => return Err(error),
        }
    }
    Ok(())
}

/// Brings in the list of a cycle, or of any three of its rows, with what is derived of it, and marks the variable that says which
/// of the first two rows stands before the other.
pub(crate) fn bring_in(
    subject: &Subject<'_>,
    progress: &mut Progress,
    alloc: Global,
    cycle: Cycle,
    guides: &mut Guides,
) -> Result<(), NoMemory>
    requires held { IsHeld subject.now progress.old.solver progress.old.brought.items }
    requires cycle { IsOfList subject.now cycle }
    ensures held { IsHeld subject.now progress.new.solver progress.new.brought.items }
    ensures added { HasAdded progress.old.solver progress.new.solver }
    ensures scope { progress.new.solver.trail.scope ≡ progress.old.solver.trail.scope }
    ensures tied { KeepsTied subject.now progress.old.solver.steps progress.new.solver.steps }
    ensures units { counted_steps progress.new.solver.steps ≡ counted_steps progress.old.solver.steps }
    ensures later { unmarked progress.new.brought.items ≤ unmarked progress.old.brought.items }
    ensures brings { OnOk result (Brings subject.now cycle progress.old.solver.steps progress.old.brought.items
        progress.new.brought.items) }
{
    let first = progress.solver.log().steps.len();
    match bring_axioms(subject, progress, alloc, cycle, guides) {
        Ok(()) => add_lasts(subject, progress, alloc, cycle, first, guides),
        Err(error) => Err(error),
    }
}

// Brings in the axioms on three rows of the list of a cycle, and marks the variable.
fn bring_axioms(
    subject: &Subject<'_>,
    progress: &mut Progress,
    alloc: Global,
    cycle: Cycle,
    guides: &mut Guides,
) -> Result<(), NoMemory>
    requires held { IsHeld subject.now progress.old.solver progress.old.brought.items }
    requires cycle { IsOfList subject.now cycle }
    ensures held { IsHeld subject.now progress.new.solver progress.new.brought.items }
    ensures added { HasAdded progress.old.solver progress.new.solver }
    ensures scope { progress.new.solver.trail.scope ≡ progress.old.solver.trail.scope }
    ensures tied { KeepsTied subject.now progress.old.solver.steps progress.new.solver.steps }
    ensures units { counted_steps progress.new.solver.steps ≡ counted_steps progress.old.solver.steps }
    ensures later { unmarked progress.new.brought.items ≤ unmarked progress.old.brought.items }
    ensures brings { OnOk result (Brings subject.now cycle progress.old.solver.steps progress.old.brought.items
        progress.new.brought.items) }
{
    match add_list(subject, &mut progress.solver, alloc, cycle, guides) {
        Ok(()) => {
            mark(subject, &mut progress.brought, cycle);
            Ok(())
        }
        Err(error) => Err(error),
    }
}

// Puts the axioms on three rows of the list of a cycle after the steps; where memory runs out, some of them.
fn add_list(
    subject: &Subject<'_>,
    solver: &mut Solver,
    alloc: Global,
    cycle: Cycle,
    guides: &mut Guides,
) -> Result<(), NoMemory>
    requires list { IsOfList subject.now cycle }
    requires statements { solver.old.frame.statements ≡ vars_of subject.now }
    ensures frame { solver.new.frame ≡ solver.old.frame }
    ensures scope { solver.new.trail.scope ≡ solver.old.trail.scope }
    ensures added { HasAxioms subject.now solver.old.steps solver.new.steps }
    ensures ok { OnOk result (HaveThrees subject.now solver.new.steps cycle.rel cycle.attr cycle.ent.0) }
{
    match subject.transitive(alloc, cycle.rel, cycle.attr, cycle.ent) {
        Ok(axioms) => add_all(solver, &axioms, guides),
        Err(error) => Err(error),
    }
}

// Marks the variable that says which of the first two rows of a cycle stands before the other.
fn mark(subject: &Subject<'_>, brought: &mut Vec<bool>, cycle: Cycle)
    requires list { IsOfList subject.now cycle }
    requires marks { length brought.old.items ≡ length (vars_of subject.now) }
    ensures { IsMarked subject.now cycle brought.old.items brought.new.items }
{
    one_literal();
    let lit = subject.before(cycle.rel, cycle.attr, cycle.first, cycle.second);
    brought[lit.var() as usize] = true;
}

// Puts these axioms after the steps; where memory runs out, the first of them.
fn add_all(solver: &mut Solver, axioms: &Steps, guides: &mut Guides) -> Result<(), NoMemory>
    requires { All (IsFitAxiom (length solver.old.frame.statements)) axioms.now }
    ensures frame { solver.new.frame ≡ solver.old.frame }
    ensures scope { solver.new.trail.scope ≡ solver.old.trail.scope }
    ensures ok { OnOk result (solver.new.steps ≡ solver.old.steps ++ axioms.now) }
    ensures added { (count : ℕ) × (solver.new.steps ≡ solver.old.steps ++ take count axioms.now) }
{
    for place in 0..axioms.len() {
        match add(solver, axioms.get(place), guides) {
            Ok(()) => {}
            Err(error) => return Err(error),
        }
    }
    Ok(())
}

// Puts an axiom after the steps. It is not counted.
fn add(solver: &mut Solver, step: StepRef<'_>, guides: &mut Guides) -> Result<(), NoMemory>
    requires { IsFitAxiom (length solver.old.frame.statements) (step_of step) }
    ensures frame { solver.new.frame ≡ solver.old.frame }
    ensures scope { solver.new.trail.scope ≡ solver.old.trail.scope }
    ensures ok { OnOk result (solver.new.steps ≡ solver.old.steps ++ step_of step.entry ∷ []) }
    ensures err { OnErr result (solver.new.steps ≡ solver.old.steps) }
{
    match step {
        StepRef::Axiom { label, lits } => solver.add_clause(label, lits, false, guides),
        _ => unreachable!(),
    }
}
