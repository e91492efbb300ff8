ghost use Rattle.std.specs.Prelude.{◌++◌, ◌∷◌, List, []};
ghost use Rattle.currency_base.specs.declared.lit.Lit.{Lit};
ghost use Rattle.log_replay.specs.Replays.{IsState};

use crate::marks::Marks;
use currency_base::Lit;

/// What literals that are false leave of a clause.
#[derive(Clone, Copy)]
pub(crate) enum ClauseState {
    /// All its literals are false.
    Falsified,
    /// This one is not, and each other one is.
    Unit(Lit),
    /// Two are not, or more.
    Unresolved,
}

/// The state of a clause whose literals are looked up among those that are false.
pub(crate) fn state_of(falses: &Marks, clause: &[Lit]) -> ClauseState
    ensures { IsState falses.now clause.now result }
{
    let mut state = ClauseState::Falsified;
    for lit in clause {
        state = state_with(falses, state, *lit);
    }
    state
}

// The state of a clause with one literal more.
fn state_with(falses: &Marks, state: ClauseState, lit: Lit) -> ClauseState
    ensures { (front : List Lit) → IsState falses.now front state → IsState falses.now (front ++ lit ∷ []) result }
{
    if falses.has(lit) {
        return state;
    }
    match state {
        ClauseState::Falsified => ClauseState::Unit(lit),
        ClauseState::Unit(open) => {
            if open == lit {
                return state;
            }
            ClauseState::Unresolved
        }
        ClauseState::Unresolved => ClauseState::Unresolved,
    }
}
