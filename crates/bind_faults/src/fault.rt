ghost use Rattle.std.specs.Prelude.{◌≡◌, ◌⊎◌, None, option_map};
ghost use Rattle.bind_faults.specs.Faults.{refused_at, refused_of};

use currency_base::{ErrorCode, Name, NoMemory, Value};
use std::alloc::Global;
use text_grammar::Named;

/// The first check of a document that fails.
#[derive(Debug, Drop)]
pub struct Refusal {
    pub code: ErrorCode,
    /// The table at fault; `None` is the tree's own text.
    pub document: Option<Name>,
    /// The line in the text, or the number of the record, where the header is 1.
    pub line: u32,
}

/// Why nothing is bound.
#[derive(Debug, Drop)]
pub enum BindFault {
    Refused(Refusal),
    /// A row differs from the row that it is copied from. The values are those of the first place where
    /// they do; document and line are as in a refusal.
    CopyDiffers {
        document: Option<Name>,
        line: u32,
        target: Value,
        source: Value,
    },
    /// A quantity is above its bound; the number is that of the limit.
    Limit(u8),
    /// The shelf could not give this document.
    ReadFault(Name),
    /// Want of memory.
    NoMemory,
}

impl From<NoMemory> for BindFault {
    ghost use Rattle.std.specs.Prelude.{◌≡◌};
    ghost use Rattle.bind_faults.specs.declared.fault.BindFault.TheVariants as fault;

    ghost from_gives = { λ _ f. f ≡ fault.NoMemory };

    fn from(_: NoMemory) -> BindFault {
        BindFault::NoMemory
    }
}

impl BindFault {
    /// The refusal of a name in the tree's own text, at its line.
    pub fn at(code: ErrorCode, named: &Named) -> BindFault
        ensures { result ≡ refused_at code named.now }
    {
        BindFault::Refused(Refusal {
            code,
            document: None,
            line: named.line,
        })
    }

    /// The refusal of a name, at its line in a table, or in the tree's own text where no document is named.
    /// For want of memory it is that.
    pub fn of(alloc: Global, code: ErrorCode, document: Option<&Name>, named: &Named) -> BindFault
        ensures { (result ≡ BindFault.NoMemory) ⊎ (result ≡ refused_of (option_map (λ n. n.now) document.entry) code named.now) }
    {
        let line = named.line;
        let document = match document {
            None => None,
            Some(name) => match name.duplicate(alloc) {
                Ok(name) => Some(name),
                Err(_) => return BindFault::NoMemory,
            },
        };
        BindFault::Refused(Refusal {
            code,
            document,
            line,
        })
    }
}
