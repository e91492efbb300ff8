ghost use Rattle.std.specs.Prelude.{◌≡◌, ◌<◌, Some, None, true, false, Contains};
ghost use Rattle.currency_base.specs.Literals.{var_of, negation};
ghost use Rattle.search_trail.specs.Trails.{IsFree, lits_of};
ghost use Rattle.refutation_log.specs.Counted.{IsOpen};

use currency_base::Lit;
use search_trail::Trail;

/// Is the literal true under a trail, or false? None where it is open.
pub fn truth(trail: &Trail, lit: Lit) -> Option<bool>
    requires { var_of lit < trail.now.vars }
    ensures holds { result ≡ Some true → Contains (lits_of trail.now) lit }
    ensures fails { result ≡ Some false → Contains (lits_of trail.now) (negation lit) }
    ensures open { result ≡ None → IsOpen (lits_of trail.now) lit }
    ensures free { result ≡ None → IsFree trail.now (var_of lit) }
{
    let value = trail.values().value(lit.var())?;
    Some(value != lit.negative())
}

/// Is the literal false under a trail?
pub(crate) fn is_false(trail: &Trail, lit: Lit) -> bool
    requires { var_of lit < trail.now.vars }
    ensures fails { result ≡ true → Contains (lits_of trail.now) (negation lit) }
    ensures not_false { result ≡ false → Contains (lits_of trail.now) (negation lit) → ⊥ }
{
    trail.are_entries();
    match truth(trail, lit) {
        Some(true) => false,
        Some(false) => true,
        None => false,
    }
}
