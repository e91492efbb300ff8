ghost use Rattle.std.specs.Prelude.{◌≡◌, ◌<◌, ◌++◌, ◌∷◌, ℕ, [], All, Some, length, map, slice_get, IfOk, OnOk};
ghost use Rattle.currency_base.specs.Literals.{var_of};
ghost use Rattle.refutation_log.specs.Steps.{step_of, clause_of};
ghost use Rattle.refutation_log.specs.declared.step.Step.{Step};
ghost use Rattle.log_trim.specs.Trimmed.{hints_of, hints_at, lits_at, kept_of, rank, renumbered_lit, renumbered_step, renumbered_statement};
ghost use Rattle.log_trim.specs.Marked.{is_marked, one_where, answers_of, answers_at};

use crate::numbering::Numbering;
use currency_base::{Lit, LitList, NoMemory, Tuple, TupleList};
use refutation_log::{HintList, Statement, StatementList, StepRef, Steps};
use std::alloc::Global;

/// The answers that are kept.
pub fn kept_answers(
    alloc: Global,
    answers: &TupleList,
    kept: &Numbering,
) -> Result<TupleList, NoMemory>
    requires { length kept.now ≡ length answers.now }
    ensures { IfOk result (λ list. list ≡ kept_of (is_marked kept.now) answers.now) }
{
    let mut list = TupleList::new(alloc);
    for place in 0..answers.len() {
        push_answer(alloc, &mut list, answers.get(place), kept.is_kept(place))?;
    }
    Ok(list)
}

// Puts a copy of an answer at the end, where so told.
fn push_answer(
    alloc: Global,
    list: &mut TupleList,
    answer: &Tuple,
    told: bool,
) -> Result<(), NoMemory>
    ensures { OnOk result (list.new ≡ list.old ++ one_where told answer.now) }
{
    if !told {
        return Ok(());
    }
    let copy = answer.duplicate(alloc)?;
    list.push(copy)
}

/// The statements that are kept, which name answers by their new places.
pub fn kept_statements(
    alloc: Global,
    statements: &StatementList,
    kept: &Numbering,
    answers: &Numbering,
) -> Result<StatementList, NoMemory>
    requires count { length kept.now ≡ length statements.now }
    requires tuples { (place : ℕ) → All (λ tuple. tuple < length answers.now) (answers_at statements.now place) }
    ensures { IfOk result (λ list. list ≡ map (renumbered_statement (is_marked answers.now))
        (kept_of (is_marked kept.now) statements.now)) }
{
    let mut list = StatementList::new(alloc);
    for place in 0..statements.len() {
        push_statement(
            &mut list,
            statements.get(place),
            answers,
            kept.is_kept(place),
        )?;
    }
    Ok(list)
}

// Puts a statement, renumbered, at the end, where so told.
fn push_statement(
    list: &mut StatementList,
    statement: &Statement,
    answers: &Numbering,
    told: bool,
) -> Result<(), NoMemory>
    requires { All (λ tuple. tuple < length answers.now) (answers_of statement.now) }
    ensures { OnOk result (list.new ≡ list.old ++ one_where told (renumbered_statement (is_marked answers.now) statement.now)) }
{
    if !told {
        return Ok(());
    }
    list.push(renumber_statement(statement, answers))
}

// The statement, which names its answer by its new place.
fn renumber_statement(statement: &Statement, answers: &Numbering) -> Statement
    requires { All (λ tuple. tuple < length answers.now) (answers_of statement.now) }
    ensures { result ≡ renumbered_statement (is_marked answers.now) statement.now }
{
    match statement {
        Statement::Answer { tuple } => Statement::Answer {
            tuple: answers.rank(*tuple as usize),
        },
        _ => *statement,
    }
}

/// The steps that are kept, with the new numbers of steps and variables.
pub fn kept_steps(
    alloc: Global,
    steps: &Steps,
    kept: &Numbering,
    vars: &Numbering,
) -> Result<Steps, NoMemory>
    requires count { length kept.now ≡ length steps.now }
    requires lits { (place : ℕ) → All (λ lit. var_of lit < length vars.now) (lits_at steps.now place) }
    requires hints { (place : ℕ) → All (λ hint. hint < place) (hints_at steps.now place) }
    ensures { IfOk result (λ list. list ≡ map (renumbered_step (is_marked kept.now) (is_marked vars.now))
        (kept_of (is_marked kept.now) steps.now)) }
{
    let mut list = Steps::new(alloc);
    for place in 0..steps.len() {
        let told = kept.is_kept(place);
        push_kept(alloc, &mut list, steps, place, kept, vars, told)?;
    }
    Ok(list)
}

// Puts the step at a place, renumbered, at the end, where so told; else it is not looked at.
fn push_kept(
    alloc: Global,
    list: &mut Steps,
    from: &Steps,
    place: usize,
    steps: &Numbering,
    vars: &Numbering,
    told: bool,
) -> Result<(), NoMemory>
    requires place { place < length from.now }
    requires lits { All (λ lit. var_of lit < length vars.now) (lits_at from.now place) }
    requires hints { All (λ hint. hint < length steps.now) (hints_at from.now place) }
    ensures { (step : Step) → slice_get from.now place ≡ Some step → OnOk result (list.new ≡ list.old ++ one_where told
        (renumbered_step (is_marked steps.now) (is_marked vars.now) step)) }
{
    if !told {
        return Ok(());
    }
    push_step(alloc, list, from.get(place), steps, vars)
}

// Puts a step, renumbered, at the end.
fn push_step(
    alloc: Global,
    list: &mut Steps,
    step: StepRef<'_>,
    steps: &Numbering,
    vars: &Numbering,
) -> Result<(), NoMemory>
    requires lits { All (λ lit. var_of lit < length vars.now) (clause_of (step_of step)) }
    requires hints { All (λ hint. hint < length steps.now) (hints_of (step_of step)) }
    ensures { OnOk result (list.new ≡ list.old
        ++ renumbered_step (is_marked steps.now) (is_marked vars.now) (step_of step.entry) ∷ []) }
{
    match step {
        StepRef::Axiom { label, lits } => {
            let lits = renumber_lits(alloc, lits, vars)?;
            list.push(StepRef::Axiom {
                label,
                lits: lits.as_slice(),
            })
        }
        StepRef::OnDemand { label, lits } => {
            let lits = renumber_lits(alloc, lits, vars)?;
            list.push(StepRef::OnDemand {
                label,
                lits: lits.as_slice(),
            })
        }
        StepRef::Learn {
            lits,
            hints,
            counted,
        } => {
            let lits = renumber_lits(alloc, lits, vars)?;
            let hints = renumber_places(alloc, hints, steps)?;
            list.push(StepRef::Learn {
                lits: lits.as_slice(),
                hints: hints.as_slice(),
                counted,
            })
        }
    }
}

// The literals, of the new numbers of their variables.
fn renumber_lits(alloc: Global, lits: &[Lit], vars: &Numbering) -> Result<LitList, NoMemory>
    requires { All (λ lit. var_of lit < length vars.now) lits.now }
    ensures { IfOk result (λ list. list ≡ map (renumbered_lit (is_marked vars.now)) lits.now) }
{
    let mut list = LitList::new(alloc);
    for lit in lits {
        list.push(renumber_lit(*lit, vars))?;
    }
    Ok(list)
}

// The literal of the new number of its variable.
fn renumber_lit(lit: Lit, vars: &Numbering) -> Lit
    requires { var_of lit < length vars.now }
    ensures { result ≡ renumbered_lit (is_marked vars.now) lit }
{
    Lit::new(vars.rank(lit.var() as usize), lit.negative())
}

/// The new numbers of steps.
pub fn renumber_places(
    alloc: Global,
    places: &[u32],
    steps: &Numbering,
) -> Result<HintList, NoMemory>
    requires { All (λ place. place < length steps.now) places.now }
    ensures { IfOk result (λ list. list ≡ map (rank (is_marked steps.now)) places.now) }
{
    let mut list = HintList::new(alloc);
    for place in places {
        list.push(steps.rank(*place as usize))?;
    }
    Ok(list)
}
