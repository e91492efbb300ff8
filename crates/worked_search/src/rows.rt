ghost use Rattle.std.specs.Prelude.{◌≡◌, ◌<◌, ◌≤◌, ◌^◌, length, IfSome};
ghost use Rattle.currency_base.specs.Literals.{var_of};

use crate::cases::{Case, make_case};
use crate::guides::Ring;
use crate::tables::has_model;
use currency_base::{Assignment, Lit, NoMemory};
use made_clauses::{Source, add, pigeons, solver};
use solver_guides::{Guide, Guides};
use std::alloc::Global;
use std::test::Fail;
use watch_solver::{Budget, Found, Solver};

// What a decision came to, its contents aside.
#[derive(Clone, Copy, Debug, PartialEq, Eq)]
pub(crate) enum Outcome {
    Model,
    Proved,
    Empty,
    Spent,
}

// Decides within a budget. A goal that is none of the solver's literals is no goal.
pub(crate) fn decide(
    solver: &mut Solver,
    goal: Option<Lit>,
    budget: u64,
    guides: &mut Guides,
) -> Result<Outcome, NoMemory> {
    let goal = known(solver, goal);
    let mut budget = Budget::new(budget);
    Ok(match solver.decide(goal, &mut budget, guides)? {
        Found::Model => Outcome::Model,
        Found::Proved(_) => Outcome::Proved,
        Found::Empty(_) => Outcome::Empty,
        Found::Spent => Outcome::Spent,
    })
}

// The goal, if it is one of the solver's literals.
fn known(solver: &Solver, goal: Option<Lit>) -> Option<Lit>
    ensures { IfSome result (λ lit. var_of lit < length solver.now.frame.statements) }
{
    let lit = goal?;
    if lit.var() as usize >= solver.log().statements.len() {
        return None;
    }
    Some(lit)
}

// A ring whose guides are fitted to a first guess by which so many variables are false.
pub(crate) fn ring(alloc: Global, ring: Ring, vars: u32) -> Result<Guides, NoMemory> {
    let mut boxes: Vec<Box<dyn Guide>> = Vec::new(alloc);
    match ring.fill(alloc, &mut boxes) {
        Ok(()) => fitted(alloc, Guides::new(boxes), vars),
        Err(error) => Err(error),
    }
}

// The ring, its guides fitted.
fn fitted(alloc: Global, mut guides: Guides, vars: u32) -> Result<Guides, NoMemory> {
    match Assignment::new(alloc, vars) {
        Ok(start) => {
            guides.fit_all(alloc, &start);
            Ok(guides)
        }
        Err(error) => Err(error),
    }
}

// Does the solver find a model exactly where truth tables do?
fn agrees(alloc: Global, case: &Case, guides: &mut Guides) -> Result<bool, NoMemory> {
    match solver(alloc, case.vars.min(5)) {
        Ok(mut solver) => agrees_with(&mut solver, case, guides),
        Err(error) => Err(error),
    }
}

// The same, with a solver that has no clause yet.
fn agrees_with(solver: &mut Solver, case: &Case, guides: &mut Guides) -> Result<bool, NoMemory> {
    for clause in &case.clauses {
        if let Some(clause) = clause {
            add(solver, clause.lits(), guides)?;
        }
    }
    let outcome = decide(solver, case.goal, 1_000, guides)?;
    Ok(match outcome {
        Outcome::Model => has_model(case),
        Outcome::Proved => !has_model(case) && case.goal.is_some(),
        Outcome::Empty => !has_model(case),
        Outcome::Spent => false,
    })
}

// What clauses come to.
#[derive(Clone, Copy, Debug)]
enum Clauses {
    // each of the eight on three variables
    Eight,
    // six pigeons in five holes
    Pigeons,
    // units over two variables
    Units([Option<Lit>; 2]),
}

impl Clauses {
    // Adds them.
    fn fill(self, solver: &mut Solver, alloc: Global, guides: &mut Guides) -> Result<(), NoMemory> {
        match self {
            Clauses::Eight => add_eight(solver, guides),
            Clauses::Pigeons => pigeons(solver, alloc, guides, 5),
            Clauses::Units(units) => {
                for unit in &units {
                    if let Some(unit) = unit {
                        add(solver, &[*unit], guides)?;
                    }
                }
                Ok(())
            }
        }
    }
}

// Each of the eight clauses on three variables.
fn add_eight(solver: &mut Solver, guides: &mut Guides) -> Result<(), NoMemory> {
    for signs in 0..8_u32 {
        let lits = [
            Lit::new(0, signs & 1 == 1),
            Lit::new(1, signs & 2 == 2),
            Lit::new(2, signs & 4 == 4),
        ];
        add(solver, &lits, guides)?;
    }
    Ok(())
}

// A question on clauses: a goal, and how many units there are.
#[derive(Clone, Copy, Debug)]
struct Asked {
    vars: u32,
    clauses: Clauses,
    goal: Option<Lit>,
    budget: u64,
}

// What it comes to, how many steps the log has then, and the value of the first variable.
#[derive(Clone, Copy, Debug, PartialEq, Eq)]
struct Reached {
    outcome: Outcome,
    steps: usize,
    first: Option<bool>,
}

// What it comes to with a ring.
fn answer(alloc: Global, asked: Asked, kind: Ring) -> Result<Reached, NoMemory> {
    match ring(alloc, kind, asked.vars) {
        Ok(mut guides) => answer_with(alloc, asked, &mut guides),
        Err(error) => Err(error),
    }
}

// The same, with the guides.
fn answer_with(alloc: Global, asked: Asked, guides: &mut Guides) -> Result<Reached, NoMemory> {
    match solver(alloc, asked.vars.min(100)) {
        Ok(mut solver) => answer_by(&mut solver, alloc, asked, guides),
        Err(error) => Err(error),
    }
}

// The same, with a solver that has no clause yet.
fn answer_by(
    solver: &mut Solver,
    alloc: Global,
    asked: Asked,
    guides: &mut Guides,
) -> Result<Reached, NoMemory> {
    asked.clauses.fill(solver, alloc, guides)?;
    let outcome = decide(solver, asked.goal, asked.budget, guides)?;
    Ok(Reached {
        outcome,
        steps: solver.log().steps.len(),
        first: first_value(solver),
    })
}

// The value of the first variable, if there is one.
fn first_value(solver: &Solver) -> Option<bool> {
    let values = solver.trail().values();
    if values.len() == 0 {
        return None;
    }
    values.value(0)
}

// The eight clauses within a budget.
fn eight(budget: u64) -> Asked {
    Asked {
        vars: 3,
        clauses: Clauses::Eight,
        goal: None,
        budget,
    }
}

// Units and a goal.
fn units(first: Option<Lit>, second: Option<Lit>, goal: Option<Lit>) -> Asked {
    Asked {
        vars: 2,
        clauses: Clauses::Units([first, second]),
        goal,
        budget: 10,
    }
}

// No clause over no variable.
fn nothing() -> Asked {
    Asked {
        vars: 0,
        clauses: Clauses::Units([None; 2]),
        goal: None,
        budget: 0,
    }
}

// Do cases from a number on agree with truth tables?
fn agree(alloc: Global, cases: u32, guides: &mut Guides) -> Result<bool, NoMemory> {
    let mut source = Source::new(1);
    for _ in 0..cases {
        let case = make_case(&mut source);
        if !agrees(alloc, &case, guides)? {
            return Ok(false);
        }
    }
    Ok(true)
}

#[test]
fn small_cases_agree_with_truth_tables(rt: HostRuntime) -> Result<(), Fail> {
    let mut guides = ring(rt.alloc(), Ring::All, 5)?;
    assert!(rt; agree(rt.alloc(), 10_000, &mut guides)?);
    Ok(())
}

#[test]
fn budgets_are_kept_by_each_ring(rt: HostRuntime) -> Result<(), Fail> {
    let alloc = rt.alloc();
    let pigeons = Asked {
        vars: 30,
        clauses: Clauses::Pigeons,
        goal: None,
        budget: 10_000,
    };
    for kind in Ring::EACH {
        let none = answer(alloc, eight(0), kind)?;
        assert_eq!(rt; (none.outcome, none.steps), (Outcome::Spent, 8));
        let one = answer(alloc, eight(1), kind)?;
        assert_eq!(rt; (one.outcome, one.steps), (Outcome::Spent, 9));
        assert_eq!(rt; answer(alloc, eight(27), kind)?.outcome, Outcome::Empty);
        assert_eq!(rt; answer(alloc, pigeons, kind)?.outcome, Outcome::Empty);
    }
    Ok(())
}

#[test]
fn guides_are_asked(rt: HostRuntime) -> Result<(), Fail> {
    // the ring's own pick is the first free variable, negated; this guide picks it as true
    let own = answer(rt.alloc(), units(None, None, None), Ring::None)?;
    assert_eq!(rt; (own.outcome, own.first), (Outcome::Model, Some(false)));
    // one that was refused memory was dropped
    let dropped = answer(rt.alloc(), units(None, None, None), Ring::Refused)?;
    assert_eq!(rt;
        (dropped.outcome, dropped.first),
        (Outcome::Model, Some(false))
    );
    let guided = answer(rt.alloc(), units(None, None, None), Ring::Assigned)?;
    assert_eq!(rt;
        (guided.outcome, guided.first),
        (Outcome::Model, Some(true))
    );
    Ok(())
}

#[test]
fn goals_at_level_zero(rt: HostRuntime) -> Result<(), Fail> {
    let alloc = rt.alloc();
    assert_eq!(rt;
        answer(alloc, nothing(), Ring::First)?.outcome,
        Outcome::Model
    );
    let one = Some(Lit::new(0, false));
    let not_one = Some(Lit::new(0, true));
    let two = Some(Lit::new(1, true));
    assert_eq!(rt;
        answer(alloc, units(None, None, None), Ring::First)?.outcome,
        Outcome::Model
    );
    assert_eq!(rt;
        answer(alloc, units(None, None, one), Ring::First)?.outcome,
        Outcome::Model
    );
    assert_eq!(rt;
        answer(alloc, units(one, None, one), Ring::First)?.outcome,
        Outcome::Proved
    );
    assert_eq!(rt;
        answer(alloc, units(one, None, not_one), Ring::First)?.outcome,
        Outcome::Model
    );
    assert_eq!(rt;
        answer(alloc, units(one, None, two), Ring::First)?.outcome,
        Outcome::Model
    );
    assert_eq!(rt;
        answer(alloc, units(one, not_one, two), Ring::First)?.outcome,
        Outcome::Empty
    );
    Ok(())
}
