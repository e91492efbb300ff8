ghost use Rattle.std.specs.Prelude.{◌≡◌, IfSome, List, option_map};
ghost use Rattle.query_model.specs.declared.query.Test.{Test};
ghost use Rattle.query_plan.specs.Implied.{Follows, side_at};

use query_model::{Test, TestTerm};

/// That a side of comparisons is at most another, or below it. Sides go by number: that on the left of the
/// k-th comparison has the number 2 k, that on its right 2 k + 1.
#[derive(Clone, Copy)]
pub(crate) struct Standing {
    pub low: usize,
    pub high: usize,
    pub is_below: bool,
}

/// The side of a number.
pub(crate) fn side(tests: &[Test], number: usize) -> Option<&TestTerm>
    ensures { option_map (λ s. s.now) result ≡ side_at tests.now number }
{
    let test = tests.get(number / 2)?;
    if number % 2 == 0 {
        Some(&test.left)
    } else {
        Some(&test.right)
    }
}

/// What follows of a first and a last side, if the first stands so to one that stands so to the last.
pub(crate) fn joined(first: Standing, second: Standing) -> Option<Standing>
    ensures { IfSome result (λ both. (tests : List Test) → Follows tests first → Follows tests second → Follows tests both) }
{
    if first.high != second.low {
        return None;
    }
    Some(Standing {
        low: first.low,
        high: second.high,
        is_below: first.is_below || second.is_below,
    })
}
