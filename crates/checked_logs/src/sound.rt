ghost use Rattle.checked_logs.specs.Sound.{AcceptedAreTrue, EmptyMeansNone};

/// Laws: the clause of each step of an accepted log is true in every consistent completion. So there is
/// none where an accepted log has the empty clause.
pub fn accepted_logs_are_true()
    ensures steps { AcceptedAreTrue }
    ensures none { EmptyMeansNone }
{}
