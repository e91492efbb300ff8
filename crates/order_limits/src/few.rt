ghost use Rattle.order_limits.specs.Few.{StatementsAreFew};

/// A law: within the limits, and with at most a million answers, each numbered statement has a literal.
pub fn statements_are_few()
    ensures { StatementsAreFew }
{}
