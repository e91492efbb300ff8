use currency_base::{NoMemory, Value};

/// Why a row is not mapped.
#[derive(Debug, Drop)]
pub enum CopyFault {
    /// The target row is mapped already.
    CopyTwice,
    /// The first place, counted from 0, at which the rows have different values, and these values.
    CopyDiffers {
        place: u32,
        target: Value,
        source: Value,
    },
    /// Want of memory.
    NoMemory,
}

impl From<NoMemory> for CopyFault {
    ghost use Rattle.std.specs.Prelude.{◌≡◌};
    ghost use Rattle.copy_functions.specs.declared.fault.CopyFault.TheVariants as fault;

    ghost from_gives = { λ _ e. e ≡ fault.NoMemory };

    fn from(_: NoMemory) -> CopyFault {
        CopyFault::NoMemory
    }
}
