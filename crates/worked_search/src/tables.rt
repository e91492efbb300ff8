//! The plain slow decision: every truth of the variables is tried.

use crate::cases::{Case, Clause};
use currency_base::Lit;

/// Is there a truth of the variables that makes each clause true and the goal false?
pub(crate) fn has_model(case: &Case) -> bool {
    let truths = 1_u32.wrapping_shl(case.vars);
    for truth in 0..truths {
        if is_model(case, truth) {
            return true;
        }
    }
    false
}

// Does this truth make each clause true and the goal false? Its bits are the variables.
fn is_model(case: &Case, truth: u32) -> bool {
    let goal_false = match case.goal {
        Some(goal) => !is_true(goal, truth),
        None => true,
    };
    goal_false
        && case.clauses.iter().all(|clause| clause
            .as_ref()
            .is_none_or(|clause| holds(clause, truth)))
}

// Does this truth make the clause true?
fn holds(clause: &Clause, truth: u32) -> bool {
    clause.lits().iter().any(|lit| is_true(*lit, truth))
}

// Is the literal true?
fn is_true(lit: Lit, truth: u32) -> bool {
    (truth.wrapping_shr(lit.var()) & 1 == 1) != lit.negative()
}
