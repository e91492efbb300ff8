ghost use Rattle.std.specs.Prelude.{◌≡◌, ◌+◌, ◌<◌, ◌≤◌, Some, ◌∷◌, length, slice_get, slice_range, get_or, vec_len, vec_capacity, IfOk, OnOk};
ghost use Rattle.flat_lists.specs.Flat.{cut_from, IsFlat};

use currency_base::NoMemory;

/// Where the items of the list at a place start, or where those of one more would.
pub(crate) fn start_of(ends: &[u32], place: usize) -> usize
    requires { place ≤ length ends.now }
    ensures { result ≡ get_or (0 ∷ ends.now) place 0 }
{
    if place == 0 {
        return 0;
    }
    ends[place - 1] as usize
}

/// Where the items of the list at a place start and end.
pub(crate) fn span<T>(items: &[T], ends: &[u32], place: usize) -> (usize, usize)
    requires flat { IsFlat ends.now (length items.now) }
    requires within { place < length ends.now }
    ensures order { result.0 ≤ result.1 }
    ensures within { result.1 ≤ length items.now }
    ensures list { slice_get (cut_from 0 ends.now items.now) place
        ≡ Some (slice_range items.now result.0 result.1) }
{
    let start = start_of(ends, place);
    (start, ends[place] as usize)
}

/// The end of a list of so many items after these, with room for one more end. It is refused where the end
/// has no number.
pub(crate) fn next_end(ends: &mut Vec<u32>, items: usize, more: usize) -> Result<u32, NoMemory>
    ensures end { IfOk result (λ end. end ≡ items + more) }
    ensures few { IfOk result (λ end. end ≤ 4294967295) }
    ensures items { ends.new.items ≡ ends.old.items }
    ensures room { OnOk result (vec_len ends.new < vec_capacity ends.new) }
{
    if items.saturating_add(more) > u32::MAX as usize {
        return Err(NoMemory);
    }
    let Ok(()) = ends.reserve(1) else {
        return Err(NoMemory);
    };
    Ok((items + more) as u32)
}
