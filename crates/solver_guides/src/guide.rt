ghost use Rattle.std.specs.Prelude.{◌≡◌, ℕ, Bool, true, Option, length, is_ok, OnOk};
ghost use Rattle.currency_base.specs.declared.lit.Lit.{Lit};
ghost use Rattle.search_trail.specs.Trails.{ScopedValues};

use currency_base::{Assignment, Lit, NoMemory};
use search_trail::Values;
use std::alloc::Global;

/// What picks the literals that a search assumes, of variables of its scope. A guide may be wrong: it may pick nothing, a
/// variable that has a value, one beyond the scope, or one that is none of the search's.
pub trait Guide: Drop {
    /// What it picks for the values of the variables, and the scope.
    ghost choice: { Self → ScopedValues → Option Lit };

    /// Has it made room for so many variables?
    ghost has_room: { Self → ℕ → Bool };

    /// Could a call of `fit` over so many variables tell this, that there was memory or that there was none, and leave
    /// that guide?
    ghost may_fit: { Self → ℕ → Bool → Self → Bool };

    /// Makes room for the variables of `start`, a first guess at a model, which are all of the scope. A guide that is
    /// refused memory is dropped by the ring, and no other one is.
    fn fit(&mut self, alloc: Global, start: &Assignment) -> Result<(), NoMemory>
        ensures room { OnOk result (has_room self.new (length start.now) ≡ true) }
        ensures told { may_fit self.old (length start.now) (is_ok result) self.new ≡ true };

    /// A literal to assume, for these values.
    fn pick(&mut self, values: &Values) -> Option<Lit>
        ensures { result ≡ choice self.old values.now };

    /// A variable of a conflict.
    fn saw(&mut self, var: u32);

    /// A literal that is true in these values is free from now on.
    fn freed(&mut self, lit: Lit, values: &Values);

    /// The search leaves a scope for another one. Takes time in proportion to it.
    fn leave(&mut self, scope: &[u32]);

    /// The search enters a scope, of whose variables it assumes literals from now on. Takes time in proportion to it.
    fn enter(&mut self, scope: &[u32]);

    /// The search begins again from the goal.
    fn restarted(&mut self);
}
