ghost use Rattle.std.specs.Prelude.{◌≡◌};
ghost use Rattle.std.specs.Bool.{OnTrue};

use currency_base::Cmp;
use query_model::{Atom, Term};

/// Do two atoms say the same?
pub(crate) fn are_same(one: &Atom, other: &Atom) -> bool
    ensures { OnTrue result (one.now ≡ other.now) }
{
    one.relation == other.relation && are_same_terms(one.terms.as_slice(), other.terms.as_slice())
}

// Are the terms the same, place by place?
fn are_same_terms(one: &[Term], other: &[Term]) -> bool
    ensures { OnTrue result (one.now ≡ other.now) }
{
    if one.len() != other.len() {
        return false;
    }
    for place in 0..one.len() {
        if !is_same_term(&one[place], &other[place]) {
            return false;
        }
    }
    true
}

// Are two terms the same?
fn is_same_term(one: &Term, other: &Term) -> bool
    ensures { OnTrue result (one.now ≡ other.now) }
{
    match (one, other) {
        (Term::Var(one), Term::Var(other)) => *one == *other,
        (Term::Any, Term::Any) => true,
        (Term::Constant(one), Term::Constant(other)) => one.test(Cmp::Eq, other),
        _ => false,
    }
}
