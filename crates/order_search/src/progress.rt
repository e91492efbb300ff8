ghost use Rattle.std.specs.Prelude.{◌≡◌, IfSome, Some};
ghost use Rattle.search_trail.specs.Trails.{lits_of, value_in};

use refutation_log::Log;
use search_trail::Trail;
use watch_solver::Solver;

/// How far a search came: its solver, and for each variable whether it is marked. A variable is marked only if it says of
/// two rows of a list which stands before the other, and all axioms on three rows of this list are among the steps. And for each
/// variable the place of the axiom `top` that begins with its literal, once a list of a wanted relation was brought in.
#[derive(Drop)]
pub(crate) struct Progress {
    pub solver: Solver,
    pub brought: Vec<bool>,
    pub tops: Vec<u32>,
}

impl Progress {
    /// The log, which is all that is left.
    pub(crate) fn into_log(self) -> Log
        ensures answers { result.answers ≡ self.solver.frame.answers }
        ensures statements { result.statements ≡ self.solver.frame.statements }
        ensures steps { result.steps ≡ self.solver.steps }
    {
        self.solver.into_log()
    }
}

/// The value that a variable has with nothing assumed, if it has one.
pub(crate) fn root_value(trail: &Trail, var: u32) -> Option<bool>
    ensures { IfSome result (λ value. value_in (lits_of trail.now) var ≡ Some value) }
{
    if var >= trail.values().len() {
        return None;
    }
    match trail.values().value(var) {
        Some(value) => {
            if trail.level(var) == 0 {
                Some(value)
            } else {
                None
            }
        }
        None => None,
    }
}
