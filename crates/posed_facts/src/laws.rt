ghost use Rattle.posed_facts.specs.Laws.{FactsAreAsked};

/// A law: the question for a fact asks whether it holds.
pub fn facts_are_asked()
    ensures { FactsAreAsked }
{}
