/// The first step of a log that fails, counted from 0, and why.
#[derive(Clone, Copy, Debug, PartialEq, Eq)]
pub enum LogFault {
    /// The literals are not the clause of the step's label, or the label has none.
    NotAnAxiom { step: u32 },
    /// The clause does not follow: the hint at this place, which is not the last, leaves two literals or
    /// more open; or, where the place is the number of hints, the last one leaves one open, or there is none.
    NotDerived { step: u32, place: u32 },
    /// A hint is no earlier step.
    UnknownHint { step: u32 },
    NoMemory,
}
