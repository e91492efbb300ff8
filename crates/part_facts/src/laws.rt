ghost use Rattle.part_facts.specs.Laws.{FactsWiden, PartsAreAsked};

/// A law: what a question asks of a part, and what holds there in a completion, holds in each one of the whole that says
/// the same of the part's rows.
pub fn facts_widen()
    ensures { FactsWiden }
{}

/// A law: a question for a fact of the whole that speaks of a part's rows is one of the part.
pub fn parts_are_asked()
    ensures { PartsAreAsked }
{}
