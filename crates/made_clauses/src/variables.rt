ghost use Rattle.std.specs.Prelude.{◌≡◌, ◌<◌, ◌≤◌, ◌^◌, ◌-◌, [], true, length, slice_get, IfOk, IfSome};
ghost use Rattle.currency_base.specs.Literals.{var_of};
ghost use Rattle.search_state.specs.States.{IsFit};

use currency_base::{Lit, NoMemory, RuleId};
use refutation_log::{LabelRef, Log, Statement};
use solver_guides::Guides;
use std::alloc::Global;
use watch_solver::Solver;

/// A solver over so many variables, and no clause.
pub fn solver(alloc: Global, vars: u32) -> Result<Solver, NoMemory>
    requires { vars ≤ 2 ^ 31 }
    ensures statements { IfOk result (λ solver. length solver.frame.statements ≡ vars) }
    ensures steps { IfOk result (λ solver. solver.steps ≡ []) }
{
    let mut log = Log::new(alloc);
    for tuple in 0..vars {
        log.statements.push(Statement::Answer { tuple })?;
    }
    Solver::new(alloc, log)
}

/// Adds a clause as an axiom. Where its variables do not ascend or are not the solver's it is left out.
pub fn add(solver: &mut Solver, lits: &[Lit], guides: &mut Guides) -> Result<(), NoMemory>
    ensures { solver.new.frame ≡ solver.old.frame }
{
    if !is_fit(lits, solver.log().statements.len()) {
        return Ok(());
    }
    let label = LabelRef::Rule {
        rule: RuleId(0),
        rows: &[],
    };
    solver.add_clause(label, lits, false, guides)
}

// Do the variables of these literals ascend, and are they among so many?
fn is_fit(lits: &[Lit], vars: usize) -> bool
    ensures { result ≡ true → IsFit vars lits.now }
{
    for place in 0..lits.len() {
        if !goes_on(lits, place, vars) {
            return false;
        }
    }
    true
}

// Is the variable at a place among so many, and greater than the one before?
fn goes_on(lits: &[Lit], place: usize, vars: usize) -> bool
    requires { place < length lits.now }
    ensures within { result ≡ true → IfSome (slice_get lits.now place) (λ lit. var_of lit < vars) }
    ensures rises { result ≡ true → 0 < place → IfSome (slice_get lits.now place)
        (λ lit. IfSome (slice_get lits.now (place - 1)) (λ before. var_of before < var_of lit)) }
{
    if lits[place].var() as usize >= vars {
        return false;
    }
    if place == 0 {
        return true;
    }
    lits[place - 1].var() < lits[place].var()
}
