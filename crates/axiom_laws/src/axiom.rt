ghost use Rattle.axiom_laws.specs.Laws.{AxiomsHold};

/// A law: every axiom of a specification is true in every consistent completion of it.
pub fn axioms_hold()
    ensures { AxiomsHold }
{}
