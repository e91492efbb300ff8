ghost use Rattle.part_narrow.specs.Laws.{NarrowsExist};

/// A law: for each completion of the whole there is one of a part that says the same of its rows.
pub fn narrows_exist()
    ensures { NarrowsExist }
{}
