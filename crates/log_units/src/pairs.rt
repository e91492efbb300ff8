ghost use Rattle.std.specs.Prelude.{◌≡◌, true, [], Contains, OnOk};
ghost use Rattle.log_units.specs.Said.{Adds};

use crate::said::SaidPair;
use currency_base::NoMemory;
use std::alloc::Global;
use std::collections::BTreeSet;
use std::marker::Model;

/// The pairs that units say. Contracts see them as a list.
#[derive(Drop)]
pub(crate) struct SaidPairs {
    set: BTreeSet<SaidPair>,
}

impl Model for SaidPairs {
    ghost use Rattle.std.specs.Prelude.{List};
    ghost use Rattle.log_units.specs.declared.said.SaidPair.{SaidPair};

    ghost Value = { List SaidPair };

    ghost view = { λ p. p.set.keys };
}

impl SaidPairs {
    /// No pair.
    pub(crate) fn new(alloc: Global) -> SaidPairs
        ensures { result ≡ [] }
    {
        SaidPairs {
            set: BTreeSet::new(alloc),
        }
    }

    /// Notes a pair, if there is one.
    pub(crate) fn note(&mut self, pair: Option<SaidPair>) -> Result<(), NoMemory>
        ensures { OnOk result (Adds (Contains self.old) (Contains self.new) pair) }
    {
        match pair {
            Some(pair) => {
                self.set.insert(pair)?;
                Ok(())
            }
            None => Ok(()),
        }
    }

    /// Is the pair among them?
    pub(crate) fn has(&self, pair: SaidPair) -> bool
        ensures is_there { result ≡ true → Contains self.now pair }
        ensures is_found { Contains self.now pair → result ≡ true }
    {
        self.set.contains(&pair)
    }
}
