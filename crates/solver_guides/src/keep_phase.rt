ghost use Rattle.std.specs.Prelude.{◌≡◌, ◌==◌, [], if◌then◌else◌, length, not, slice_set, OnOk, OnErr};
ghost use Rattle.currency_base.specs.Literals.{var_of, is_negative};
ghost use Rattle.solver_guides.specs.Choices.{first_free_as};
ghost use Rattle.solver_guides.specs.Known.{phases_of};

use crate::Guide;
use crate::choices::{copied, first_free_as, set_phase};
use currency_base::{Assignment, Lit, NoMemory};
use search_trail::Values;
use std::alloc::Global;

/// Picks the first free variable of the scope, with the value that it had when it was last freed, at first that of the
/// first guess at a model. Takes one byte for each variable.
#[derive(Drop)]
pub struct KeepPhase {
    phases: Vec<bool>,
}

impl KeepPhase {
    /// Every variable is guessed to be false.
    pub fn new(alloc: Global) -> KeepPhase
        ensures { phases_of result ≡ [] }
    {
        KeepPhase {
            phases: Vec::new(alloc),
        }
    }
}

impl Guide for KeepPhase {
    ghost choice = { λ g. first_free_as (phases_of g) };

    ghost has_room = { λ g vars. length (phases_of g) == vars };

    ghost may_fit = { λ g vars fits h. length (phases_of h) == (if fits then vars else length (phases_of g)) };

    fn fit(&mut self, alloc: Global, start: &Assignment) -> Result<(), NoMemory>
        ensures start { OnOk result (phases_of self.new ≡ start.now) }
        ensures err { OnErr result (phases_of self.new ≡ phases_of self.old) }
    {
        match copied(alloc, start) {
            Ok(truths) => {
                self.phases = truths;
                Ok(())
            }
            Err(fault) => Err(fault),
        }
    }

    fn pick(&mut self, values: &Values) -> Option<Lit>
        ensures picks { result ≡ first_free_as (phases_of self.old) values.now }
        ensures same { phases_of self.new ≡ phases_of self.old }
    {
        first_free_as(&self.phases, values)
    }

    fn saw(&mut self, _var: u32)
        ensures { phases_of self.new ≡ phases_of self.old }
    {}

    fn freed(&mut self, lit: Lit, _values: &Values)
        ensures { phases_of self.new ≡ slice_set (phases_of self.old) (var_of lit) (not (is_negative lit)) }
    {
        set_phase(&mut self.phases, lit);
    }

    fn leave(&mut self, _scope: &[u32])
        ensures { phases_of self.new ≡ phases_of self.old }
    {}

    fn enter(&mut self, _scope: &[u32])
        ensures { phases_of self.new ≡ phases_of self.old }
    {}

    fn restarted(&mut self)
        ensures { phases_of self.new ≡ phases_of self.old }
    {}
}
