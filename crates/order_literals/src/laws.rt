ghost use Rattle.order_literals.specs.Laws.{StatementsAscend, OneLiteral, OneSaid, SaysWithin, NegationSays, LiteralIsDecided, LiteralsExclude, PairIsDecided, PairExcludes, SaidOfPairs};

/// A law: the numbered statements ascend, so each is numbered once.
pub fn statements_ascend()
    ensures { StatementsAscend }
{}

/// Laws: one literal at most says a statement with its sign, what it says is one thing, it is of a statement,
/// and its negation says the same with the other sign.
pub fn one_literal()
    ensures one { OneLiteral }
    ensures said { OneSaid }
    ensures within { SaysWithin }
    ensures negation { NegationSays }
{}

/// Laws: of a literal and its negation one is true under an assignment, and not both.
pub fn literals_are_decided()
    ensures decided { LiteralIsDecided }
    ensures exclude { LiteralsExclude }
{}

/// Laws: of two different rows of one entity, one stands before the other under an assignment, and not both;
/// and what is said of the order of two rows is of two such rows.
pub fn pairs_are_decided()
    ensures decided { PairIsDecided }
    ensures exclude { PairExcludes }
    ensures pairs { SaidOfPairs }
{}
