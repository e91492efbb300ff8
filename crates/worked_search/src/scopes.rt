//! Decisions in a scope: what is beyond it stays free, whatever a guide picks.

ghost use Rattle.std.specs.Prelude.{IfOk};
ghost use Rattle.search_trail.specs.Trails.{IsScope};

use crate::guides::Ring;
use crate::rows::{Outcome, decide, ring};
use currency_base::{Lit, NoMemory};
use made_clauses::{add, solver};
use solver_guides::Guides;
use std::alloc::Global;
use std::test::Fail;
use watch_solver::Solver;

// The variables from one on and below another.
fn between(alloc: Global, first: u32, end: u32) -> Result<Vec<u32>, NoMemory>
    ensures { IfOk result (λ scope. IsScope end scope.items) }
{
    let mut scope = Vec::new(alloc);
    for var in 0..end {
        if var >= first {
            scope.push(var)?;
        }
    }
    Ok(scope)
}

// The solver takes the scope of the variables from one on and below another, if it has these.
fn move_to(
    solver: &mut Solver,
    alloc: Global,
    first: u32,
    end: u32,
    guides: &mut Guides,
) -> Result<(), NoMemory> {
    if end as usize > solver.log().statements.len() {
        return Ok(());
    }
    let scope = between(alloc, first, end)?;
    solver.focus(alloc, scope.as_slice(), guides)
}

// Which of the first four variables have a value.
fn known(solver: &Solver) -> [bool; 4] {
    let values = solver.trail().values();
    let mut known = [false; 4];
    for var in 0..4_u32 {
        known[var as usize] = var < values.len() && values.value(var).is_some();
    }
    known
}

// A decision that finds a model; tells which variables have a value then.
fn known_after(
    solver: &mut Solver,
    goal: Option<Lit>,
    guides: &mut Guides,
) -> Result<Option<[bool; 4]>, NoMemory> {
    match decide(solver, goal, 100, guides)? {
        Outcome::Model => Ok(Some(known(solver))),
        _ => Ok(None),
    }
}

// What is known after a decision in each half of four variables, and then under a goal of the other half.
fn halves(
    solver: &mut Solver,
    alloc: Global,
    guides: &mut Guides,
) -> Result<[Option<[bool; 4]>; 3], NoMemory> {
    add(solver, &[Lit::new(0, false), Lit::new(1, false)], guides)?;
    add(solver, &[Lit::new(2, false), Lit::new(3, false)], guides)?;
    move_to(solver, alloc, 2, 4, guides)?;
    let high = known_after(solver, None, guides)?;
    move_to(solver, alloc, 0, 2, guides)?;
    let low = known_after(solver, None, guides)?;
    let both = known_after(solver, Some(Lit::new(2, false)), guides)?;
    Ok([high, low, both])
}

// The same, over four variables and with the guides of a ring.
fn halves_with(alloc: Global, guides: &mut Guides) -> Result<[Option<[bool; 4]>; 3], NoMemory> {
    match solver(alloc, 4) {
        Ok(mut solver) => halves(&mut solver, alloc, guides),
        Err(error) => Err(error),
    }
}

// With a ring of this kind.
fn halves_by(alloc: Global, kind: Ring) -> Result<[Option<[bool; 4]>; 3], NoMemory> {
    match ring(alloc, kind, 4) {
        Ok(mut guides) => halves_with(alloc, &mut guides),
        Err(error) => Err(error),
    }
}

// One guide picks the first variable, one a variable that is none: the ring falls back to the scope.
#[test]
fn decisions_stay_in_their_scope(rt: HostRuntime) -> Result<(), Fail> {
    for kind in Ring::EACH {
        let [high, low, both] = halves_by(rt.alloc(), kind)?;
        assert_eq!(rt; high, Some([false, false, true, true]));
        assert_eq!(rt; low, Some([true, true, false, false]));
        assert_eq!(rt; both, Some([true; 4]));
    }
    Ok(())
}
