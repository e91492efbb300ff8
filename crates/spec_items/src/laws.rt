ghost use Rattle.spec_items.specs.Laws.{AllItems, FewerItems};

/// A law: a consistent completion of more items is one of fewer.
pub fn fewer_items()
    ensures { FewerItems }
{}

/// A law: with all its items a specification has the consistent completions that it has.
pub fn all_items()
    ensures { AllItems }
{}
