ghost use Rattle.std.specs.Prelude.{◌≡◌, ◌<◌, ◌∷◌, ◌++◌, [], Some, length, slice_get, OnOk, OnErr};
ghost use Rattle.refutation_log.specs.Steps.{step_of, clause_of, clauses_of};

use crate::StepRef;
use currency_base::{Lit, NoMemory};
use heads::{Head, Parts};
use lists::{Lists, duplicates};
use std::alloc::Global;
use std::marker::Model;

mod heads;
mod lists;

/// The steps of a log, in order. Contracts see them as a list. They are kept flat: beside its literals,
/// hints and the lists of its label, a step takes 48 bytes.
#[derive(Drop)]
pub struct Steps {
    heads: Vec<Head>,
    lists: Lists,
    // for copies of the values of labels
    alloc: Global,
}

impl Model for Steps {
    ghost use Rattle.std.specs.Prelude.{List, length};
    ghost use Rattle.refutation_log.specs.declared.step.Step.{Step};

    ghost Value = { List Step };

    ghost use Rattle.refutation_log.specs.Kept.{steps_from, HaveLists};

    ghost view = { λ s. steps_from 0 s.heads.items s.lists };

    ghost invariant = { λ s. HaveLists (length s.heads.items) s.lists };
}

impl Steps {
    /// No step.
    pub fn new(alloc: Global) -> Steps
        ensures { result ≡ [] }
    {
        Steps {
            heads: Vec::new(alloc),
            lists: Lists::new(alloc),
            alloc,
        }
    }

    /// How many steps there are.
    pub fn len(&self) -> usize
        ensures { result ≡ length self.now }
    {
        self.heads.len()
    }

    /// The step at a place, counted from 0.
    pub fn get(&self, place: usize) -> StepRef<'_>
        requires { place < length self.now }
        ensures { slice_get self.now place ≡ Some (step_of result) }
    {
        self.lists.step(self.heads[place], place)
    }

    /// The literals of the step at a place.
    pub fn lits(&self, place: usize) -> &[Lit]
        requires { place < length self.now }
        ensures { slice_get (clauses_of self.now) place ≡ Some result.now }
    {
        self.lists.lits.get(place)
    }

    /// Puts a step after the others. A refusal changes nothing.
    pub fn push(&mut self, step: StepRef<'_>) -> Result<(), NoMemory>
        ensures ok { OnOk result (self.new ≡ self.old ++ step_of step.entry ∷ []) }
        ensures err { OnErr result (self.new ≡ self.old) }
    {
        let parts = Parts::of(step);
        let Ok(values) = duplicates(self.alloc, parts.values) else {
            return Err(NoMemory);
        };
        let Ok(()) = self.lists.put(self.heads.len(), &parts, values) else {
            return Err(NoMemory);
        };
        let Ok(()) = self.heads.push(parts.head) else {
            return Err(NoMemory);
        };
        Ok(())
    }
}
