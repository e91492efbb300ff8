ghost use Rattle.std.specs.Prelude.{◌≡◌, option_map};
ghost use Rattle.ucq_answers.specs.Partly.{may_hold, passes, side_of};

use crate::binding::Binding;
use currency_base::Value;
use query_model::{Test, TestTerm};

/// Does no comparison fail whose values are known?
pub(crate) fn passes(values: &Binding, tests: &[Test]) -> bool
    ensures { result ≡ passes values.now tests.now }
{
    tests.iter().all(|test| may_hold(values, test))
}

// Does a comparison hold, or is one of its values not known?
fn may_hold(values: &Binding, test: &Test) -> bool
    ensures { result ≡ may_hold (side_of values.now test.now.left) test.now.cmp (side_of values.now test.now.right) }
{
    match (side_of(values, &test.left), side_of(values, &test.right)) {
        (Some(left), Some(right)) => left.test(test.cmp, right),
        _ => true,
    }
}

/// The value of a side of a comparison, if it is known.
pub(crate) fn side_of<'a>(values: &Binding<'a>, side: &'a TestTerm) -> Option<&'a Value>
    ensures { option_map (λ v. v.now) result ≡ side_of values.now side.now }
{
    match side {
        TestTerm::Var(var) => values.value(*var),
        TestTerm::Constant(constant) => Some(constant),
    }
}
