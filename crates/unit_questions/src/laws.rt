ghost use Rattle.unit_questions.specs.Laws.{ClaimsAreAsked};

/// A law: the question for a claim asks whether it holds.
pub fn claims_are_asked()
    ensures { ClaimsAreAsked }
{}
