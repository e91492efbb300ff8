ghost use Rattle.std.specs.Prelude.{◌≡◌, ◌<◌, ◌≤◌, ◌+◌, ◌*◌, ◌/◌, ◌^◌, ℕ, length, map, slice_index_or};
ghost use Rattle.count_tree.specs.Nodes.{AreRightBelow, AreRightBut, IsBetter, IsRight, count_at, node};

/// What stands at a node with no present number below it.
pub(crate) const NO_NUMBER: u32 = u32::MAX;

// The count of a number; what is no number has count 0.
fn count_at(counts: &[u64], number: u32) -> u64
    ensures { result ≡ count_at counts.now number }
{
    if (number as usize) < counts.len() {
        counts[number as usize]
    } else {
        0
    }
}

// The one of two that comes first. No number comes last: its count is 0, and there is no greater one.
fn better(counts: &[u64], left: u32, right: u32) -> u32
    ensures { IsBetter counts.now left right result }
{
    let left_count = count_at(counts, left);
    let right_count = count_at(counts, right);
    if left_count < right_count {
        return right;
    }
    if left_count == right_count && right < left {
        return right;
    }
    left
}

/// What stands at a node.
pub(crate) fn node(present: &[bool], best: &[u32], place: usize) -> u32
    requires few { length best.now ≤ 4294967295 }
    requires same { length present.now ≡ length best.now }
    requires within { place < 2 * length best.now }
    ensures { result ≡ node present.now best.now place }
{
    if place < best.len() {
        return best[place];
    }
    let number = place - best.len();
    if present[number] {
        number as u32
    } else {
        NO_NUMBER
    }
}

// The better one of what stands at the children of a node.
fn winner(counts: &[u64], present: &[bool], best: &[u32], place: usize) -> u32
    requires few { length best.now ≤ 4294967295 }
    requires same { length present.now ≡ length best.now }
    requires within { place < length best.now }
    ensures { IsBetter counts.now (node present.now best.now (2 * place)) (node present.now best.now (2 * place + 1)) result }
{
    let left = node(present, best, 2 * place);
    let right = node(present, best, 2 * place + 1);
    better(counts, left, right)
}

/// Sets a node and all above it right, where no others are wrong.
pub(crate) fn mend(counts: &[u64], present: &[bool], best: &mut [u32], start: usize)
    requires few { length best.old ≤ 4294967295 }
    requires same { length present.now ≡ length best.old }
    requires within { start < length best.old }
    requires others { AreRightBelow counts.now present.now best.old start }
    ensures length { length best.new ≡ length best.old }
    ensures right { (place : ℕ) → 0 < place → place < length best.new → IsRight counts.now present.now best.new place }
{
    let mut place = start;
    while place > 0 {
        best[place] = winner(counts, present, best, place);
        place /= 2;
    }
}

/// Sets a node right, and those above it up to where one stays as it is, where no others are wrong. Such a node's number is
/// compared with the same counts as before.
pub(crate) fn mend_up(counts: &[u64], present: &[bool], best: &mut [u32], start: usize)
    requires few { length best.old ≤ 4294967295 }
    requires same { length present.now ≡ length best.old }
    requires within { start < length best.old }
    requires others { AreRightBut counts.now present.now best.old start }
    ensures length { length best.new ≡ length best.old }
    ensures right { (place : ℕ) → 0 < place → place < length best.new → IsRight counts.now present.now best.new place }
{
    let mut place = start;
    while place > 0 {
        let first = winner(counts, present, best, place);
        if best[place] == first {
            return;
        }
        best[place] = first;
        place /= 2;
    }
}

/// Sets all nodes right.
pub(crate) fn mend_all(counts: &[u64], present: &[bool], best: &mut [u32])
    requires few { length best.old ≤ 4294967295 }
    requires same { length present.now ≡ length best.old }
    ensures length { length best.new ≡ length best.old }
    ensures right { (place : ℕ) → 0 < place → place < length best.new → IsRight counts.now present.now best.new place }
{
    let mut place = best.len();
    while place > 1 {
        place -= 1;
        best[place] = winner(counts, present, best, place);
    }
}

/// Divides all counts by 2 to the power of a number below 64, rounded down.
pub(crate) fn divide_all(counts: &mut [u64], power: u32)
    requires { power < 64 }
    ensures { counts.new ≡ map (λ count. count / 2 ^ power) counts.old }
{
    for count in counts.iter_mut() {
        *count >>= power;
    }
}
