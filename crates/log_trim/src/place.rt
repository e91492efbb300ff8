ghost use Rattle.std.specs.Prelude.{◌≡◌, ◌<◌, ◌^◌, true, All, length};
ghost use Rattle.currency_base.specs.Literals.{var_of};
ghost use Rattle.refutation_log.specs.Steps.{step_of};
ghost use Rattle.log_trim.specs.Trimmed.{AreInPlace};
ghost use Rattle.log_trim.specs.Place.{IsStepInPlace, AreStepsInPlace, IsStatementInPlace, AreStatementsInPlace};

use currency_base::Lit;
use refutation_log::{Log, Statement, StatementList, StepRef, Steps};

/// Can the log be trimmed to these goals: are the numbers in it, and the goals, places in its lists, each
/// hint that of an earlier step, and the lists no longer than their numbers?
pub fn is_in_place(log: &Log, goals: &[u32]) -> bool
    ensures { result ≡ true → AreInPlace log.now goals.now }
{
    if !are_few(log) {
        return false;
    }
    if !are_below(log.steps.len(), goals) {
        return false;
    }
    if !are_steps_in_place(&log.steps, log.statements.len()) {
        return false;
    }
    are_statements_in_place(&log.statements, log.answers.len())
}

// Are the lists no longer than their numbers?
fn are_few(log: &Log) -> bool
    ensures steps { result ≡ true → length log.now.steps < 2 ^ 32 }
    ensures statements { result ≡ true → length log.now.statements < 2 ^ 31 }
    ensures answers { result ≡ true → length log.now.answers < 2 ^ 32 }
{
    if log.steps.len() >= 1 << 32 {
        return false;
    }
    if log.statements.len() >= 1 << 31 {
        return false;
    }
    log.answers.len() < 1 << 32
}

// Are the variables of each step's literals among so many statements, and its hints earlier steps?
fn are_steps_in_place(steps: &Steps, statements: usize) -> bool
    ensures { result ≡ true → AreStepsInPlace statements (length steps.now) steps.now }
{
    for place in 0..steps.len() {
        if !is_step_in_place(steps.get(place), place, statements) {
            return false;
        }
    }
    true
}

// The same of the step at a place.
fn is_step_in_place(step: StepRef<'_>, place: usize, statements: usize) -> bool
    ensures { result ≡ true → IsStepInPlace statements place (step_of step.entry) }
{
    match step {
        StepRef::Axiom { lits, .. } => are_within(statements, lits),
        StepRef::OnDemand { lits, .. } => are_within(statements, lits),
        StepRef::Learn { lits, hints, .. } => {
            are_within(statements, lits) && are_below(place, hints)
        }
    }
}

// Do the answers that statements name stand among so many?
fn are_statements_in_place(statements: &StatementList, answers: usize) -> bool
    ensures { result ≡ true → AreStatementsInPlace answers (length statements.now) statements.now }
{
    for place in 0..statements.len() {
        if !is_statement_in_place(statements.get(place), answers) {
            return false;
        }
    }
    true
}

// The same of a statement.
fn is_statement_in_place(statement: &Statement, answers: usize) -> bool
    ensures { result ≡ true → IsStatementInPlace answers statement.now }
{
    match statement {
        Statement::Answer { tuple } => (*tuple as usize) < answers,
        _ => true,
    }
}

// Are the numbers below this one?
fn are_below(bound: usize, numbers: &[u32]) -> bool
    ensures { result ≡ true → All (λ number. number < bound) numbers.now }
{
    numbers.iter().all(|number| (*number as usize) < bound)
}

// Are the variables of the literals among so many?
fn are_within(statements: usize, lits: &[Lit]) -> bool
    ensures { result ≡ true → All (λ lit. var_of lit < statements) lits.now }
{
    lits.iter().all(|lit| (lit.var() as usize) < statements)
}
