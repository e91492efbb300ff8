ghost use Rattle.axiom_laws.specs.Laws.{LiteralsAreDecided, LiteralsExclude, LiteralsComplement};

/// A law: whether a literal is true in rankings is decided.
pub fn literals_are_decided()
    ensures { LiteralsAreDecided }
{}

/// Laws of negation: a literal and its negation are never both true, and where one is not, the other
/// is.
pub fn literals_or_negations()
    ensures exclude { LiteralsExclude }
    ensures complement { LiteralsComplement }
{}
