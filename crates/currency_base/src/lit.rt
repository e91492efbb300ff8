ghost use Rattle.std.specs.Prelude.{◌≡◌, ◌≢◌, ◌<◌, ◌*◌, ◌+◌, ◌^◌, not, if◌then◌else◌};
ghost use Rattle.currency_base.specs.Literals.{var_of, is_negative, literal, negation};
ghost use Rattle.currency_base.specs.declared.lit.Lit.{Lit};

/// A literal: a variable or its negation. Variables are numbered from 0, below 2^31. Takes four bytes.
#[derive(Clone, Copy, Debug, PartialEq, Eq, PartialOrd, Ord, Hash)]
pub struct Lit(u32);

impl Lit {
    /// The literal of a variable: its negation, or the variable itself.
    pub fn new(var: u32, negative: bool) -> Lit
        requires { var < 2 ^ 31 }
        ensures value { result ≡ literal var negative }
        ensures var { var_of result ≡ var }
        ensures negative { is_negative result ≡ negative }
    {
        if negative {
            Lit(2 * var + 1)
        } else {
            Lit(2 * var)
        }
    }

    /// Its variable.
    pub fn var(self) -> u32
        ensures value { result ≡ var_of self }
        ensures few { result < 2 ^ 31 }
    {
        self.0 / 2
    }

    /// Is it the negation of its variable?
    pub fn negative(self) -> bool
        ensures { result ≡ is_negative self }
    {
        self.0 % 2 == 1
    }

    /// The same variable with the other sign.
    pub fn negated(self) -> Lit
        ensures { result ≡ negation self }
    {
        if self.0 % 2 == 1 {
            Lit(2 * (self.0 / 2))
        } else {
            Lit(2 * (self.0 / 2) + 1)
        }
    }

    /// Its place in a list that has two places for each variable: first the variable's, then its
    /// negation's.
    pub fn index(self) -> usize
        ensures { result ≡ 2 * var_of self + (if is_negative self then 1 else 0) }
    {
        self.0 as usize
    }
}

/// Laws of literals: each is that of its variable and sign; its negation is that of the other sign,
/// and the negation of its negation is the literal itself.
pub fn laws_of_literals()
    ensures parts { (lit : Lit) → literal (var_of lit) (is_negative lit) ≡ lit }
    ensures negated { (lit : Lit) → negation lit ≡ literal (var_of lit) (not (is_negative lit)) }
    ensures twice { (lit : Lit) → negation (negation lit) ≡ lit }
    ensures differs { (lit : Lit) → negation lit ≢ lit }
{}
