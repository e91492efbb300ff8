ghost use Rattle.std.specs.Prelude.{◌≡◌, ◌==◌, [], if◌then◌else◌, length, OnOk, OnErr};
ghost use Rattle.solver_guides.specs.Choices.{first_free_as};
ghost use Rattle.solver_guides.specs.Known.{start_of};

use crate::Guide;
use crate::choices::{copied, first_free_as};
use currency_base::{Assignment, Lit, NoMemory};
use search_trail::Values;
use std::alloc::Global;

/// Picks the first free variable of the scope, with its value in the first guess at a model. Takes one byte for each variable.
#[derive(Drop)]
pub struct FirstFree {
    start: Vec<bool>,
}

impl FirstFree {
    /// Every variable is guessed to be false.
    pub fn new(alloc: Global) -> FirstFree
        ensures { start_of result ≡ [] }
    {
        FirstFree {
            start: Vec::new(alloc),
        }
    }
}

impl Guide for FirstFree {
    ghost choice = { λ g. first_free_as (start_of g) };

    ghost has_room = { λ g vars. length (start_of g) == vars };

    ghost may_fit = { λ g vars fits h. length (start_of h) == (if fits then vars else length (start_of g)) };

    fn fit(&mut self, alloc: Global, start: &Assignment) -> Result<(), NoMemory>
        ensures start { OnOk result (start_of self.new ≡ start.now) }
        ensures err { OnErr result (start_of self.new ≡ start_of self.old) }
    {
        match copied(alloc, start) {
            Ok(truths) => {
                self.start = truths;
                Ok(())
            }
            Err(fault) => Err(fault),
        }
    }

    fn pick(&mut self, values: &Values) -> Option<Lit>
        ensures picks { result ≡ first_free_as (start_of self.old) values.now }
        ensures same { start_of self.new ≡ start_of self.old }
    {
        first_free_as(&self.start, values)
    }

    fn saw(&mut self, _var: u32)
        ensures { start_of self.new ≡ start_of self.old }
    {}

    fn freed(&mut self, _lit: Lit, _values: &Values)
        ensures { start_of self.new ≡ start_of self.old }
    {}

    fn leave(&mut self, _scope: &[u32])
        ensures { start_of self.new ≡ start_of self.old }
    {}

    fn enter(&mut self, _scope: &[u32])
        ensures { start_of self.new ≡ start_of self.old }
    {}

    fn restarted(&mut self)
        ensures { start_of self.new ≡ start_of self.old }
    {}
}
