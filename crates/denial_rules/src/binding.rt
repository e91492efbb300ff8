ghost use Rattle.std.specs.Prelude.{◌≡◌, ◌<◌, ◌≤◌, ◌∷◌, ◌++◌, [], length, slice_get, IsOk, OnOk, OnErr};

use currency_base::{NoMemory, RowId};
use smallvec::SmallVec;
use std::alloc::Global;
use std::marker::Model;

/// How many variables a rule may have.
pub const MOST_VARS: usize = 4;

/// One row per variable of a rule. Contracts see it as the list of the rows. Four rows need no memory.
#[derive(Drop)]
pub struct Binding {
    rows: SmallVec<RowId, 4>,
}

impl Model for Binding {
    ghost use Rattle.std.specs.Prelude.{List, ◌≤◌};
    ghost use Rattle.currency_base.specs.declared.ids.RowId.{RowId};

    ghost Value = { List RowId };

    ghost view = { λ b. b.rows.items };

    ghost invariant = { λ b. 4 ≤ b.rows.capacity };
}

impl Binding {
    /// A binding of no variable, which takes no memory.
    pub fn new(alloc: Global) -> Binding
        ensures { result ≡ [] }
    {
        Binding {
            rows: SmallVec::new(alloc),
        }
    }

    /// The binding of these rows, of which there are few enough that it takes no memory.
    pub fn of(alloc: Global, rows: &[RowId]) -> Binding
        requires { length rows.now ≤ MOST_VARS }
        ensures { result ≡ rows.now }
    {
        let mut binding = Binding::new(alloc);
        for row in rows {
            let Ok(()) = binding.push(*row) else {
                unreachable!()
            };
        }
        binding
    }

    /// Binds the next variable. The first four rows are never refused; a refusal changes nothing.
    pub fn push(&mut self, row: RowId) -> Result<(), NoMemory>
        ensures ok { OnOk result (self.new ≡ self.old ++ row ∷ []) }
        ensures err { OnErr result (self.new ≡ self.old) }
        ensures room { length self.old < MOST_VARS → IsOk result }
    {
        match self.rows.push(row) {
            Ok(()) => Ok(()),
            Err(_) => Err(NoMemory),
        }
    }

    /// How many variables are bound.
    pub fn len(&self) -> usize
        ensures { result ≡ length self.now }
    {
        self.rows.len()
    }

    /// The row of a variable.
    pub fn get(&self, var: usize) -> &RowId
        requires { var < length self.now }
        ensures { slice_get self.now var ≡ Some result.now }
    {
        &self.rows.as_slice()[var]
    }

    /// All rows, in the order of the variables.
    pub fn as_slice(&self) -> &[RowId]
        ensures { result.now ≡ self.now }
    {
        self.rows.as_slice()
    }
}

impl PartialEq for Binding {
    ghost use Rattle.std.specs.Prelude.{nat_eq};
    ghost use Rattle.std.specs.Cmp.Lexicographic.{pointwise};
    ghost use Rattle.std.specs.Cmp.Rules.{comparing};
    ghost use Rattle.std.specs.Ordering.{on};
    ghost use Rattle.std.proofs.Common.{rules};

    ghost eq = { pointwise (on (λ row. row.0) nat_eq) };

    ghost laws = { Prim.search (comparing, rules) };

    fn eq(&self, other: &Self) -> bool {
        self.as_slice() == other.as_slice()
    }
}
