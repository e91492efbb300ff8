ghost use Rattle.std.specs.Prelude.{◌≡◌, ◌≢◌, ◌/◌, ◌%◌, true, false, IfSome, List, Some};
ghost use Rattle.currency_base.specs.Values.{value_test};
ghost use Rattle.currency_base.specs.declared.value.Value.{Value};
ghost use Rattle.query_model.specs.Answers.{value_of};
ghost use Rattle.query_plan.specs.Implied.{Follows, cmp_of};

use crate::standing::{Standing, side};
use currency_base::{Cmp, Value};
use query_model::{Test, TestTerm};
use std::cmp::Ordering;

/// How a side stands to another by the comparison whose sides they are, or as constants or one variable.
pub(crate) fn given(tests: &[Test], low: usize, high: usize) -> Option<Standing>
    ensures { IfSome result (Follows tests.now) }
{
    match compared(tests, low, high) {
        Some(standing) => Some(standing),
        None => alone(tests, low, high),
    }
}

// How the sides of one comparison stand.
fn compared(tests: &[Test], low: usize, high: usize) -> Option<Standing>
    ensures { IfSome result (Follows tests.now) }
{
    let test = tests.get(low / 2)?;
    if are_sides(low, high) {
        let is_below = upward(test.cmp)?;
        return Some(Standing {
            low,
            high,
            is_below,
        });
    }
    if are_sides(high, low) {
        let is_below = downward(test.cmp)?;
        return Some(Standing {
            low,
            high,
            is_below,
        });
    }
    None
}

// Are these the left and the right side of one comparison?
fn are_sides(left: usize, right: usize) -> bool
    ensures { result ≡ true → (left % 2 ≡ 0) × (right % 2 ≢ 0) × (left / 2 ≡ right / 2) }
{
    left % 2 == 0 && right % 2 != 0 && left / 2 == right / 2
}

// Where a comparison holds, is its left side at most the right one (false), or below it (true)?
fn upward(cmp: Cmp) -> Option<bool>
    ensures { IfSome result (λ is_below. (a b : Value) → value_test cmp a b ≡ true → value_test (cmp_of is_below) a b ≡ true) }
{
    match cmp {
        Cmp::Eq => Some(false),
        Cmp::Lt => Some(true),
        Cmp::Le => Some(false),
        Cmp::Ne => None,
        Cmp::Gt => None,
        Cmp::Ge => None,
    }
}

// Is its right side at most the left one, or below it?
fn downward(cmp: Cmp) -> Option<bool>
    ensures { IfSome result (λ is_below. (a b : Value) → value_test cmp a b ≡ true → value_test (cmp_of is_below) b a ≡ true) }
{
    match cmp {
        Cmp::Eq => Some(false),
        Cmp::Gt => Some(true),
        Cmp::Ge => Some(false),
        Cmp::Ne => None,
        Cmp::Lt => None,
        Cmp::Le => None,
    }
}

// How sides stand whatever the comparisons.
fn alone(tests: &[Test], low: usize, high: usize) -> Option<Standing>
    ensures { IfSome result (Follows tests.now) }
{
    let one = side(tests, low)?;
    let other = side(tests, high)?;
    let is_below = anywhere(one, other)?;
    Some(Standing {
        low,
        high,
        is_below,
    })
}

// Is a side at most another, or below it, whatever values the variables have?
fn anywhere(low: &TestTerm, high: &TestTerm) -> Option<bool>
    ensures { IfSome result (λ is_below. (values : List Value) (x y : Value) → value_of values low.now ≡ Some x
        → value_of values high.now ≡ Some y → value_test (cmp_of is_below) x y ≡ true) }
{
    match (low, high) {
        (TestTerm::Var(low), TestTerm::Var(high)) => one_variable(*low, *high),
        (TestTerm::Constant(low), TestTerm::Constant(high)) => constants(low, high),
        _ => None,
    }
}

// A variable is at most itself.
fn one_variable(low: u32, high: u32) -> Option<bool>
    ensures { IfSome result (λ is_below. (is_below ≡ false) × (low ≡ high)) }
{
    if low == high { Some(false) } else { None }
}

// Is a constant at most another, or below it?
fn constants(low: &Value, high: &Value) -> Option<bool>
    ensures { IfSome result (λ is_below. value_test (cmp_of is_below) low.now high.now ≡ true) }
{
    match low.cmp(high) {
        Ordering::Less => Some(true),
        Ordering::Equal => Some(false),
        Ordering::Greater => None,
    }
}
