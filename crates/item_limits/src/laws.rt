ghost use Rattle.item_limits.specs.Laws.{FewerAreWithin};

/// A law: with fewer items no limit is exceeded that is not exceeded with all.
pub fn fewer_are_within()
    ensures { FewerAreWithin }
{}
