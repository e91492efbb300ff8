ghost use Rattle.std.specs.Prelude.{◌≡◌, ℕ, true, OnOk, ◌++◌, ◌∷◌, []};
ghost use Rattle.std.specs.Bool.{OnTrue};
ghost use Rattle.semi_joins.specs.Kept.{is_kept};

use currency_base::NoMemory;
use std::alloc::Global;
use std::marker::Model;

/// Of each row of a relation, whether it is kept. Contracts see the marks.
#[derive(Drop)]
pub struct Kept {
    marks: Vec<bool>,
}

impl Model for Kept {
    ghost use Rattle.semi_joins.specs.Kept.{Marks};

    ghost Value = { Marks };

    ghost view = { λ k. k.marks.items };
}

impl Kept {
    /// No row.
    pub(crate) fn new(alloc: Global) -> Kept
        ensures { result ≡ [] }
    {
        Kept {
            marks: Vec::new(alloc),
        }
    }

    /// Adds the mark of the next row.
    pub(crate) fn push(&mut self, mark: bool) -> Result<(), NoMemory>
        ensures { OnOk result (self.new ≡ self.old ++ mark ∷ []) }
    {
        self.marks.push(mark)?;
        Ok(())
    }

    /// Is the row of a place kept?
    pub fn has(&self, place: usize) -> bool
        ensures { result ≡ is_kept self.now place }
    {
        self.marks.get(place).copied().unwrap_or(false)
    }

    /// Is no row kept?
    pub(crate) fn is_none(&self) -> bool
        ensures { OnTrue result ((place : ℕ) → is_kept self.now place ≡ true → ⊥) }
    {
        for mark in &self.marks {
            if *mark {
                return false;
            }
        }
        true
    }
}
