ghost use Rattle.answer_laws.specs.Laws.{AnswersAreDecided, AnswersInAreDecided, InstancesExist, InstancesAreOne};

/// A law: whether a tuple is an answer of a query over an instance, whatever these are, is decided.
pub fn answers_are_decided()
    ensures { AnswersAreDecided }
{}

/// Laws of completions: each completion of a specification has a current instance, and has no other.
pub fn instances_exist()
    ensures exist { InstancesExist }
    ensures one { InstancesAreOne }
{}

/// A law: whether a tuple is an answer over the current instance of a completion is decided.
pub fn answers_in_are_decided()
    ensures { AnswersInAreDecided }
{}
