ghost use Rattle.std.specs.Prelude.{◌≡◌, IfOk, false, length, replicate};
ghost use Rattle.refutation_log.specs.Counted.{counted_steps};
ghost use Rattle.search_logs.specs.SearchLogs.{IsPosed, IsWithin};
ghost use Rattle.order_search.specs.Kept.{ArePlain, IsHeld, vars_of};

use crate::progress::Progress;
use crate::subject::Subject;
use currency_base::{NoMemory, TupleList};
use order_literals::one_literal;
use solver_guides::Guides;
use std::alloc::Global;
use watch_solver::Solver;

/// The start of a search: the log with the axioms from the start, and the guides with a first guess at a model.
pub(crate) fn begun(
    subject: &Subject<'_>,
    alloc: Global,
    answers: TupleList,
    guides: &mut Guides,
) -> Result<Progress, NoMemory>
    requires within { IsWithin subject.now.spec }
    requires posed { IsPosed (record { query = subject.now.query; answers = answers }) }
    requires many { subject.now.wanted.answers ≡ length answers }
    ensures answers { IfOk result (λ p. p.solver.frame.answers ≡ answers) }
    ensures held { IfOk result (λ p. IsHeld subject.now p.solver p.brought.items) }
    ensures plain { IfOk result (λ p. ArePlain subject.now p.solver.steps) }
    ensures uncounted { IfOk result (λ p. counted_steps p.solver.steps ≡ 0) }
{
    let mut solver = match solver_of(subject, alloc, answers) {
        Ok(solver) => solver,
        Err(error) => return Err(error),
    };
    match guess(subject, alloc, &mut solver, false, guides) {
        Ok(()) => {}
        Err(error) => return Err(error),
    }
    match Vec::from_elem(alloc, false, subject.vars() as usize) {
        Ok(brought) => Ok(Progress {
            solver,
            brought,
            tops: Vec::new(alloc),
        }),
        Err(_) => Err(NoMemory),
    }
}

// A solver over the log with the axioms from the start.
fn solver_of(subject: &Subject<'_>, alloc: Global, answers: TupleList) -> Result<Solver, NoMemory>
    requires within { IsWithin subject.now.spec }
    requires posed { IsPosed (record { query = subject.now.query; answers = answers }) }
    requires many { subject.now.wanted.answers ≡ length answers }
    ensures answers { IfOk result (λ s. s.frame.answers ≡ answers) }
    ensures held { IfOk result (λ s. IsHeld subject.now s (replicate (length (vars_of subject.now)) false)) }
    ensures plain { IfOk result (λ s. ArePlain subject.now s.steps) }
    ensures uncounted { IfOk result (λ s. counted_steps s.steps ≡ 0) }
{
    one_literal();
    let _few = subject.vars();
    let log = match subject.log(alloc, answers) {
        Ok(log) => log,
        Err(error) => return Err(error),
    };
    match Solver::new(alloc, log) {
        Ok(solver) => Ok(solver),
        Err(error) => Err(error),
    }
}

/// The guides learn of a guess at a model, made of what unit propagation finds where nothing is assumed.
pub(crate) fn guess(
    subject: &Subject<'_>,
    alloc: Global,
    solver: &mut Solver,
    turned: bool,
    guides: &mut Guides,
) -> Result<(), NoMemory>
    requires { solver.old.frame.statements ≡ vars_of subject.now }
    ensures frame { solver.new.frame ≡ solver.old.frame }
    ensures scope { solver.new.trail.scope ≡ solver.old.trail.scope }
    ensures steps { solver.new.steps ≡ solver.old.steps }
{
    solver.propagate_at_root(guides);
    solver.is_solver();
    match subject.start(alloc, solver.trail().values(), turned) {
        Ok(start) => {
            guides.fit_all(alloc, &start);
            Ok(())
        }
        Err(error) => Err(error),
    }
}
