ghost use Rattle.lean_hints.specs.Lean.{EachAddsOne};

/// A law: clauses of which each adds a literal falsify those, as the hints of a clause have to, and so many more.
pub fn each_adds_one()
    ensures { EachAddsOne }
{}
