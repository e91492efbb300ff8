ghost use Rattle.part_laws.specs.Laws.{PairsAreKept, PartsJoin, PartsNarrow, RestsJoin, ValuesAreKept};

/// A law, narrowing: what a consistent completion of the whole says of a part's rows is a consistent completion of the part.
pub fn parts_narrow()
    ensures { PartsNarrow }
{}

/// Laws, joining: a consistent completion of the whole stays one where a part's rows are ranked as in one of the part;
/// and one of a part and one of the rest make one of the whole.
pub fn parts_join()
    ensures part { PartsJoin }
    ensures rest { RestsJoin }
{}

/// Laws of facts: of a part's rows the same stand before others, and the same values are current, in the part as in the whole.
pub fn parts_keep_facts()
    ensures pairs { PairsAreKept }
    ensures values { ValuesAreKept }
{}
