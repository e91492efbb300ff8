/// A clause of an arena, by its place in the order in which clauses were added, counted from 0.
#[derive(Clone, Copy, PartialEq, Eq, PartialOrd, Ord)]
pub struct ClauseNo(pub u32);
