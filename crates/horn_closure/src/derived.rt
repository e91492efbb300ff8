/// A cell, and how it was derived.
#[derive(Clone, Copy, PartialEq, Eq)]
pub struct Derived {
    pub slot: u32,
    pub why: Why,
}

/// How a cell was derived. What it is derived from stands at smaller places.
#[derive(Clone, Copy, PartialEq, Eq)]
pub enum Why {
    /// It is given.
    Fact,
    /// The cells at these places meet.
    Joined { first: u32, second: u32 },
    /// The clause of this number concludes it.
    Clause(u32),
}
