ghost use Rattle.log_trim.specs.Laws.{TrimmedFollows, StepsKeep, ClausesKeep, StatementsKeep, AnswersKeep, GoalsKeep, StaysInPlace};

/// Laws of a trimmed log: what follows in the log follows in it; each step, clause, statement and answer that
/// is kept, and each goal, stands there under its new numbers; and these are again places in its lists.
pub fn trimmed_follows()
    ensures follows { TrimmedFollows }
    ensures steps { StepsKeep }
    ensures clauses { ClausesKeep }
    ensures statements { StatementsKeep }
    ensures answers { AnswersKeep }
    ensures goals { GoalsKeep }
    ensures in_place { StaysInPlace }
{}
