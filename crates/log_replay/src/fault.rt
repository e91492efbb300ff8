use currency_base::NoMemory;

/// Why a clause is not added. Places count from 0.
#[derive(Clone, Copy, Debug, PartialEq, Eq)]
pub enum StepFault {
    /// The hint at this place, which is not the last, has two literals or more that are not false.
    NotUnit { place: u32 },
    /// There is no hint, or the last one has a literal that is not false.
    NoConflict,
    /// The hint at this place is no earlier clause.
    UnknownHint { place: u32 },
    /// Want of memory.
    NoMemory,
}

impl From<NoMemory> for StepFault {
    ghost use Rattle.std.specs.Prelude.{◌≡◌};
    ghost use Rattle.log_replay.specs.declared.fault.StepFault.TheVariants as fault;

    ghost from_gives = { λ _ e. e ≡ fault.NoMemory };

    fn from(_: NoMemory) -> StepFault {
        StepFault::NoMemory
    }
}
