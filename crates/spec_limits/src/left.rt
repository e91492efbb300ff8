// What is left of a bound, as more and more is taken from it.

ghost use Rattle.std.specs.Prelude.{◌≡◌};
ghost use Rattle.spec_limits.specs.Instances.{two_for_each_three};
ghost use Rattle.spec_limits.specs.Left.{left_of, IsCapped};

/// What is left of a bound after so many more, if they do not pass it.
pub fn left_after(left: u32, more: u64) -> Option<u32>
    ensures { result ≡ left_of left more }
{
    if more > u64::from(left) {
        return None;
    }
    Some(left - more as u32)
}

/// Two for each three of so many rows, as far as 32 bits hold them.
pub(crate) fn two_for_each_three(rows: u64) -> u64
    ensures { IsCapped (two_for_each_three rows) result }
{
    let pairs = rows.saturating_mul(rows.saturating_sub(1));
    pairs.saturating_mul(rows.saturating_sub(2)) / 3
}
