ghost use Rattle.part_limits.specs.Laws.{PartsAreWithin};

/// A law: a part exceeds no limit that the whole does not.
pub fn parts_are_within()
    ensures { PartsAreWithin }
{}
