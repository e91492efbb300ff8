ghost use Rattle.std.specs.Prelude.{◌≡◌, ◌==◌, ◌&&◌, true, length, OnOk, IsOk};
ghost use Rattle.solver_guides.specs.Choices.{next_state, seeded_choice};
ghost use Rattle.solver_guides.specs.Known.{state_of};

use crate::Guide;
use currency_base::{Assignment, Lit, NoMemory};
use search_trail::Values;
use std::alloc::Global;

/// Picks any variable of the scope with any sign, by numbers that follow from a first one: a linear congruential
/// generator with the multiplier and the increment of Knuth's MMIX. The same number gives the same picks.
#[derive(Drop)]
pub struct Seeded {
    state: u64,
}

impl Seeded {
    /// Starts with a number, which is no choice yet.
    pub fn new(state: u64) -> Seeded
        ensures { state_of result ≡ state }
    {
        Seeded { state }
    }
}

impl Guide for Seeded {
    ghost choice = { λ g. seeded_choice (next_state (state_of g)) };

    ghost has_room = { λ g vars. true };

    ghost may_fit = { λ g vars fits h. fits && state_of h == state_of g };

    fn fit(&mut self, _alloc: Global, _start: &Assignment) -> Result<(), NoMemory>
        ensures fits { IsOk result }
        ensures same { state_of self.new ≡ state_of self.old }
    {
        Ok(())
    }

    fn pick(&mut self, values: &Values) -> Option<Lit>
        ensures picks { result ≡ seeded_choice (next_state (state_of self.old)) values.now }
        ensures next { state_of self.new ≡ next_state (state_of self.old) }
    {
        self.state = next_state(self.state);
        seeded_choice(self.state, values)
    }

    fn saw(&mut self, _var: u32)
        ensures { state_of self.new ≡ state_of self.old }
    {}

    fn freed(&mut self, _lit: Lit, _values: &Values)
        ensures { state_of self.new ≡ state_of self.old }
    {}

    fn leave(&mut self, _scope: &[u32])
        ensures { state_of self.new ≡ state_of self.old }
    {}

    fn enter(&mut self, _scope: &[u32])
        ensures { state_of self.new ≡ state_of self.old }
    {}

    fn restarted(&mut self)
        ensures { state_of self.new ≡ state_of self.old }
    {}
}

// The state that follows a state.
fn next_state(state: u64) -> u64
    ensures { result ≡ next_state state }
{
    state
        .wrapping_mul(6364136223846793005)
        .wrapping_add(1442695040888963407)
}

// The literal of a state: its upper 31 bits are the variable's place in the scope, bit 32 the sign.
fn seeded_choice(state: u64, values: &Values) -> Option<Lit>
    ensures { result ≡ seeded_choice state values.now }
{
    let scope = values.scope();
    if scope.is_empty() {
        return None;
    }
    let place = state / 8589934592 % scope.len() as u64;
    Some(Lit::new(scope[place as usize], state / 4294967296 % 2 == 0))
}
