ghost use Rattle.std.specs.Prelude.{◌≡◌, ◌++◌, ◌∷◌, ◌<◌, ◌^◌, [], true, vec_len, Contains, OnOk};
ghost use Rattle.currency_base.specs.declared.lit.Lit.{Lit};
ghost use Rattle.log_replay.specs.Marks.{AreMarks, is_marked};

use currency_base::{Lit, NoMemory};
use std::alloc::Global;
use std::marker::Model;

/// The literals that are false. Contracts see them in the order in which they were marked.
#[derive(Drop)]
pub(crate) struct Marks {
    // by the index of a literal: whether it is marked; literals past the end are not
    marked: Vec<bool>,
    // the marked literals, by which the marks are cleared
    lits: Vec<Lit>,
}

impl Model for Marks {
    ghost use Rattle.std.specs.Prelude.{List};
    ghost use Rattle.currency_base.specs.declared.lit.Lit.{Lit};
    ghost use Rattle.log_replay.specs.Marks.{AreMarks};

    ghost Value = { List Lit };

    ghost view = { λ m. m.lits.items };

    ghost invariant = { λ m. AreMarks m.marked.items m.lits.items };
}

impl Marks {
    /// No marked literal. Takes no memory.
    pub(crate) fn new(alloc: Global) -> Marks
        ensures { result ≡ [] }
    {
        Marks {
            marked: Vec::new(alloc),
            lits: Vec::new(alloc),
        }
    }

    /// Whether a literal is marked.
    pub(crate) fn has(&self, lit: Lit) -> bool
        ensures marked { result ≡ true → Contains self.now lit }
        ensures listed { Contains self.now lit → result ≡ true }
    {
        match self.marked.get(lit.index()) {
            Some(marked) => *marked,
            None => false,
        }
    }

    /// Marks a literal.
    pub(crate) fn mark(&mut self, lit: Lit) -> Result<(), NoMemory>
        ensures { OnOk result (self.new ≡ self.old ++ lit ∷ []) }
    {
        let index = lit.index();
        grow(&mut self.marked, index)?;
        let Ok(()) = self.lits.push(lit) else {
            return Err(NoMemory);
        };
        self.marked[index] = true;
        Ok(())
    }

    /// Marks all literals of a clause.
    pub(crate) fn mark_all(&mut self, lits: &[Lit]) -> Result<(), NoMemory>
        ensures { OnOk result (self.new ≡ self.old ++ lits.now) }
    {
        for lit in lits {
            self.mark(*lit)?;
        }
        Ok(())
    }

    /// Takes all marks off, in the time of those that were set.
    pub(crate) fn clear(&mut self)
        ensures { self.new ≡ [] }
    {
        unmark_all(&mut self.marked, self.lits.as_slice());
        self.lits.clear();
    }
}

// Makes room for a mark at an index, which changes no mark.
fn grow(marked: &mut Vec<bool>, index: usize) -> Result<(), NoMemory>
    requires { index < 2 ^ 32 }
    ensures within { OnOk result (index < vec_len marked.new) }
    ensures same { (lit : Lit) → is_marked marked.new.items lit ≡ is_marked marked.old.items lit }
{
    if index < marked.len() {
        return Ok(());
    }
    match marked.resize(index + 1, false) {
        Ok(()) => Ok(()),
        Err(_) => Err(NoMemory),
    }
}

// Takes the marks off, which are those of these literals.
fn unmark_all(marked: &mut Vec<bool>, lits: &[Lit])
    requires { AreMarks marked.old.items lits.now }
    ensures { AreMarks marked.new.items [] }
{
    for lit in lits {
        marked[lit.index()] = false;
    }
}
