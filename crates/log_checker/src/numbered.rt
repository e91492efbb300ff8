ghost use Rattle.std.specs.Prelude.{◌≡◌, true};
ghost use Rattle.refutation_log.specs.Steps.{step_of};
ghost use Rattle.refutation_log.specs.Numbered.{IsNumbered};
ghost use Rattle.log_checker.specs.Numbered.{are_within, is_numbered_step, is_numbered};

use currency_base::Lit;
use refutation_log::{Log, StepRef};

/// Can the log be checked: are its literals of its statements, and are there fewer than 2^32 statements,
/// and fewer than 2^32 steps and hints of a step?
pub fn is_numbered(log: &Log) -> bool
    ensures value { result ≡ is_numbered log.now.statements log.now.steps }
    ensures numbered { result ≡ true → IsNumbered log.now.statements log.now.steps }
{
    are_numbered(log)
}

// The same, and nothing of what follows from it.
#[tactic(auto, using(crate::proofs::Numbering::left_more))]
fn are_numbered(log: &Log) -> bool
    ensures { result ≡ is_numbered log.now.statements log.now.steps }
{
    let statements = log.statements.len();
    if statements >= 1 << 32 || log.steps.len() >= 1 << 32 {
        return false;
    }
    for place in 0..log.steps.len() {
        if !is_numbered_step(statements, log.steps.get(place)) {
            return false;
        }
    }
    true
}

// Are the step's literals of so many statements, and its hints few?
fn is_numbered_step(statements: usize, step: StepRef<'_>) -> bool
    ensures { result ≡ is_numbered_step statements (step_of step.entry) }
{
    match step {
        StepRef::Axiom { lits, .. } => are_within(statements, lits),
        StepRef::OnDemand { lits, .. } => are_within(statements, lits),
        StepRef::Learn { lits, hints, .. } => are_within(statements, lits) && hints.len() < 1 << 32,
    }
}

// Are the literals of so many statements?
fn are_within(statements: usize, lits: &[Lit]) -> bool
    ensures { result ≡ are_within statements lits.now }
{
    lits.iter().all(|lit| (lit.var() as usize) < statements)
}
