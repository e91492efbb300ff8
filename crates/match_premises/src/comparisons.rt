ghost use Rattle.std.specs.Prelude.{◌≡◌, option_map};
ghost use Rattle.query_model.specs.Answers.{is_compared, value_of};
ghost use Rattle.match_premises.specs.Premises.{comparisons_are};

use currency_base::Value;
use query_model::{Test, TestTerm};

/// Do comparisons hold for these values of the variables? One with a variable that has no value does not.
pub fn comparisons_hold(values: &[Value], tests: &[Test]) -> bool
    ensures { result ≡ comparisons_are values.now tests.now }
{
    tests.iter().all(|test| holds(values, test))
}

// Does a comparison hold?
fn holds(values: &[Value], test: &Test) -> bool
    ensures { result ≡ is_compared (value_of values.now test.now.left) test.now.cmp (value_of values.now test.now.right) }
{
    match (value_of(values, &test.left), value_of(values, &test.right)) {
        (Some(left), Some(right)) => left.test(test.cmp, right),
        _ => false,
    }
}

// The value of a side of a comparison, if it has one.
fn value_of<'a>(values: &'a [Value], term: &'a TestTerm) -> Option<&'a Value>
    ensures { option_map (λ v. v.now) result ≡ value_of values.now term.now }
{
    match term {
        TestTerm::Var(var) => values.get(*var as usize),
        TestTerm::Constant(value) => Some(value),
    }
}
