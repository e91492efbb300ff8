ghost use Rattle.std.specs.Prelude.{◌<◌, ◌≤◌, length};
ghost use Rattle.watch_solver.specs.Underway.{IsFinal, IsGoalBelow, IsGoalWithin, IsOfGoal};

use currency_base::Lit;
use search_trail::Trail;

/// The level of the goal: the greatest at which nothing is assumed but its negation. A conflict there is final.
pub(crate) fn goal_level(trail: &Trail, goal: Option<Lit>) -> u32
    requires within { IsGoalWithin trail.now.vars goal }
    requires kept { IsOfGoal trail.now goal }
    ensures bound { result ≤ length trail.now.starts }
    ensures last { length trail.now.starts ≤ result → IsFinal trail.now goal }
    ensures below { result < length trail.now.starts → IsGoalBelow trail.now goal }
{
    trail.are_entries();
    if trail.depth() == 0 {
        return 0;
    }
    match goal {
        Some(lit) => trail.level(lit.var()),
        None => 0,
    }
}
