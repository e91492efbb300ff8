ghost use Rattle.std.specs.Prelude.{◌<◌, ◌≤◌, ◌+◌, length, slice_index};
ghost use Rattle.std.specs.List.Sorted.{IsNonDecreasing};

/// The last place with a number up to this one, among numbers that do not fall.
pub fn last_up_to(numbers: &[u32], number: u32) -> usize
    requires ascend { IsNonDecreasing numbers.now }
    requires some { 0 < length numbers.now }
    requires first { slice_index numbers.now 0 ≤ number }
    ensures within { result < length numbers.now }
    ensures up_to { slice_index numbers.now result ≤ number }
    ensures last { result + 1 < length numbers.now → number < slice_index numbers.now (result + 1) }
{
    numbers.partition_point(|one| *one <= number) - 1
}
