ghost use Rattle.std.specs.Prelude.{◌≡◌, [], OnOk};
ghost use Rattle.forced_closure.specs.Clauses.{with_clause};

use crate::origin::Origin;
use currency_base::NoMemory;
use flat_lists::FlatLists;
use horn_closure::Clauses;
use std::alloc::Global;
use std::marker::Model;

/// Clauses over slots, and what each was made of.
#[derive(Drop)]
pub(crate) struct Gathered {
    clauses: Clauses,
    origins: Vec<Origin>,
}

impl Model for Gathered {
    ghost use Rattle.forced_closure.specs.Clauses.{HornClauses};

    ghost Value = { HornClauses };

    ghost view = { λ g. record {
      premises = g.clauses.premises;
      conclusions = g.clauses.conclusions.items;
      origins =
          g.origins.items;
    } };
}

impl Gathered {
    /// No clauses.
    pub(crate) fn new(alloc: Global) -> Gathered
        ensures { result ≡ record { premises = []; conclusions = []; origins = [] } }
    {
        Gathered {
            clauses: Clauses {
                premises: FlatLists::new(alloc),
                conclusions: Vec::new(alloc),
            },
            origins: Vec::new(alloc),
        }
    }

    /// Puts a clause after the others.
    pub(crate) fn push(
        &mut self,
        origin: Origin,
        premises: &[u32],
        conclusion: u32,
    ) -> Result<(), NoMemory>
        ensures { OnOk result (self.new ≡ with_clause self.old origin premises.now conclusion) }
    {
        self.clauses.premises.push(premises)?;
        self.clauses.conclusions.push(conclusion)?;
        self.origins.push(origin)?;
        Ok(())
    }

    /// The clauses.
    pub(crate) fn clauses(&self) -> &Clauses
        ensures premises { result.now.premises ≡ self.now.premises }
        ensures conclusions { result.now.conclusions.items ≡ self.now.conclusions }
    {
        &self.clauses
    }

    /// What each clause was made of.
    pub(crate) fn origins(&self) -> &[Origin]
        ensures { result.now ≡ self.now.origins }
    {
        &self.origins
    }
}
