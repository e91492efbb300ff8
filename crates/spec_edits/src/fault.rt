use copy_functions::CopyFault;
use currency_base::{NoMemory, Value};

/// Why an edit is refused.
#[derive(Debug, Drop)]
pub enum EditFault {
    /// The rows of a pair are one row, or of two entities.
    NotOneEntity,
    /// The row is mapped already.
    CopyTwice,
    /// The first place, counted from 0, at which a row and the one that it is to be copied from have different values, and these
    /// values.
    CopyDiffers {
        place: u32,
        target: Value,
        source: Value,
    },
    /// What is to be withdrawn is not there.
    NotThere,
    /// The specification would exceed the limit of this number: 8 or 11.
    Limit(u8),
    /// Want of memory.
    NoMemory,
}

impl From<NoMemory> for EditFault {
    ghost use Rattle.std.specs.Prelude.{◌≡◌};
    ghost use Rattle.spec_edits.specs.declared.fault.EditFault.TheVariants as fault;

    ghost from_gives = { λ _ e. e ≡ fault.NoMemory };

    fn from(_: NoMemory) -> EditFault {
        EditFault::NoMemory
    }
}

impl From<CopyFault> for EditFault {
    ghost use Rattle.std.specs.Prelude.{◌≡◌};
    ghost use Rattle.spec_edits.specs.Edits.{of_copy};

    ghost from_gives = { λ f e. e ≡ of_copy f };

    fn from(fault: CopyFault) -> EditFault {
        match fault {
            CopyFault::CopyTwice => EditFault::CopyTwice,
            CopyFault::CopyDiffers {
                place,
                target,
                source,
            } => EditFault::CopyDiffers {
                place,
                target,
                source,
            },
            CopyFault::NoMemory => EditFault::NoMemory,
        }
    }
}
