ghost use Rattle.std.specs.Prelude.{◌≡◌, ◌<◌, ◌≤◌, ◌^◌};
ghost use Rattle.currency_base.specs.Literals.{var_of};

use currency_base::Lit;

/// Numbers that look random, all of them determined by the first state (Knuth, The Art of Computer Programming, 2,
/// 3.3.4).
#[derive(Clone, Copy, Debug)]
pub struct Source {
    state: u64,
}

impl Source {
    /// The source that begins with this state.
    pub fn new(state: u64) -> Source {
        Source { state }
    }

    /// The next number below a bound; 0 where the bound is 0.
    pub fn below(&mut self, bound: u32) -> u32
        ensures { 0 < bound → result < bound }
    {
        self.state = self
            .state
            .wrapping_mul(6364136223846793005)
            .wrapping_add(1442695040888963407);
        if bound == 0 {
            return 0;
        }
        (self.state >> 33) as u32 % bound
    }

    /// The next literal of so many variables, at most 2^31.
    pub fn lit(&mut self, vars: u32) -> Lit
        ensures { 0 < vars → vars ≤ 2 ^ 31 → var_of result < vars }
    {
        let var = self.below(vars);
        lit(var, self.below(2) == 1)
    }
}

/// The literal of a variable below 2^31.
pub(crate) fn lit(var: u32, negative: bool) -> Lit
    ensures { var < 2 ^ 31 → var_of result ≡ var }
{
    Lit::new(var % 2_147_483_648, negative)
}
