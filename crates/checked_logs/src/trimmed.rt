ghost use Rattle.checked_logs.specs.Trimmed.{TrimmedAreAccepted, TrimmedAreNumbered};
ghost use Rattle.checked_logs.specs.Trimmed.{GoalClausesKeep, GoalMeaningsKeep, GoalAnswersKeep};

/// Laws: a trimmed log is accepted where the log is, and can be checked where it can. The clause of each
/// goal stands at the goal's new place, and its literals say the same.
pub fn trimmed_logs_are_accepted()
    ensures accepted { TrimmedAreAccepted }
    ensures numbered { TrimmedAreNumbered }
    ensures clauses { GoalClausesKeep }
    ensures meanings { GoalMeaningsKeep }
    ensures answers { GoalAnswersKeep }
{}
