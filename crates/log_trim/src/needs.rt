ghost use Rattle.std.specs.Prelude.{◌≡◌, ◌<◌, ℕ, All, length, map, IfOk};
ghost use Rattle.currency_base.specs.Literals.{var_of};
ghost use Rattle.log_trim.specs.Trimmed.{hints_at, lits_at, Reaches};
ghost use Rattle.log_trim.specs.Marked.{is_marked, with_all, with_all_where, swept, vars_at, answers_of, answers_at, IsMarkedWhere, IsOfMarked};

use crate::marks::Marks;
use currency_base::{Lit, NoMemory};
use refutation_log::{Log, Statement, StepRef, Steps};
use std::alloc::Global;

/// Marks the steps that the goals reach.
pub fn reached_steps(alloc: Global, steps: &Steps, goals: &[u32]) -> Result<Marks, NoMemory>
    requires goals { All (λ goal. goal < length steps.now) goals.now }
    requires hints { (place : ℕ) → All (λ hint. hint < place) (hints_at steps.now place) }
    ensures count { IfOk result (λ marks. length marks ≡ length steps.now) }
    ensures marked { IfOk result (λ marks. IsMarkedWhere marks (Reaches steps.now goals.now)) }
{
    let mut marks = Marks::new(alloc, steps.len())?;
    marks.mark_all(goals);
    sweep(&mut marks, steps);
    Ok(marks)
}

// Marks all that marked steps reach, from the last step to the first: hints are earlier steps.
fn sweep(marks: &mut Marks, steps: &Steps)
    requires count { length marks.old ≡ length steps.now }
    requires hints { (place : ℕ) → All (λ hint. hint < place) (hints_at steps.now place) }
    ensures count { length marks.new ≡ length steps.now }
    ensures value { marks.new ≡ swept (hints_at steps.now) (length steps.now) marks.old }
{
    let mut place = steps.len();
    while place > 0 {
        place -= 1;
        mark_hints(marks, steps, place);
    }
}

// Marks the hints of a step that is marked.
fn mark_hints(marks: &mut Marks, steps: &Steps, place: usize)
    requires place { place < length steps.now }
    requires count { length marks.old ≡ length steps.now }
    requires hints { All (λ hint. hint < place) (hints_at steps.now place) }
    ensures value { marks.new ≡ with_all_where (is_marked marks.old place) marks.old (hints_at steps.now place) }
    ensures count { length marks.new ≡ length marks.old }
{
    if !marks.is_marked(place) {
        return;
    }
    if let StepRef::Learn { hints, .. } = steps.get(place) {
        marks.mark_all(hints);
    }
}

/// Marks the statements whose variables stand in a step that is kept.
pub fn used_statements(alloc: Global, log: &Log, kept: &Marks) -> Result<Marks, NoMemory>
    requires count { length kept.now ≡ length log.now.steps }
    requires vars { (place : ℕ) → All (λ lit. var_of lit < length log.now.statements) (lits_at log.now.steps place) }
    ensures count { IfOk result (λ marks. length marks ≡ length log.now.statements) }
    ensures marked { IfOk result (λ marks. IsMarkedWhere marks (IsOfMarked kept.now (vars_at log.now.steps)
        (length log.now.steps))) }
{
    let mut marks = Marks::new(alloc, log.statements.len())?;
    for place in 0..log.steps.len() {
        let told = kept.is_marked(place);
        mark_vars_at(&mut marks, told, &log.steps, place);
    }
    Ok(marks)
}

// Marks the variables of the step at a place, where so told; else it is not looked at.
fn mark_vars_at(marks: &mut Marks, told: bool, steps: &Steps, place: usize)
    requires place { place < length steps.now }
    requires vars { All (λ lit. var_of lit < length marks.old) (lits_at steps.now place) }
    ensures value { marks.new ≡ with_all_where told marks.old (vars_at steps.now place) }
    ensures count { length marks.new ≡ length marks.old }
{
    if told {
        mark_vars(marks, steps.lits(place));
    }
}

// Marks the variables of literals.
fn mark_vars(marks: &mut Marks, lits: &[Lit])
    requires { All (λ lit. var_of lit < length marks.old) lits.now }
    ensures value { marks.new ≡ with_all marks.old (map var_of lits.now) }
    ensures count { length marks.new ≡ length marks.old }
{
    for lit in lits {
        marks.mark(lit.var() as usize);
    }
}

/// Marks the answers that a statement that is kept names.
pub fn named_answers(alloc: Global, log: &Log, kept: &Marks) -> Result<Marks, NoMemory>
    requires count { length kept.now ≡ length log.now.statements }
    requires tuples { (place : ℕ) → All (λ tuple. tuple < length log.now.answers) (answers_at log.now.statements place) }
    ensures count { IfOk result (λ marks. length marks ≡ length log.now.answers) }
    ensures marked { IfOk result (λ marks. IsMarkedWhere marks (IsOfMarked kept.now (answers_at log.now.statements)
        (length log.now.statements))) }
{
    let mut marks = Marks::new(alloc, log.answers.len())?;
    for place in 0..log.statements.len() {
        mark_answer(&mut marks, kept.is_marked(place), log.statements.get(place));
    }
    Ok(marks)
}

// Marks the answer that a statement names, where so told.
fn mark_answer(marks: &mut Marks, told: bool, statement: &Statement)
    requires { All (λ tuple. tuple < length marks.old) (answers_of statement.now) }
    ensures value { marks.new ≡ with_all_where told marks.old (answers_of statement.now) }
    ensures count { length marks.new ≡ length marks.old }
{
    if !told {
        return;
    }
    if let Statement::Answer { tuple } = statement {
        marks.mark(*tuple as usize);
    }
}
