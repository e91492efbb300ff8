ghost use Rattle.std.specs.Prelude.{◌≡◌, ◌<◌, ◌≤◌, ℕ, List, All, Contains, Some, IfOk, length, slice_get, true, false};
ghost use Rattle.common_answers.specs.Candidates.{IsRest, tuples_at};
ghost use Rattle.currency_base.specs.declared.value.Value.{Value};
ghost use Rattle.query_model.specs.Answers.{AreAscending, IsBelow};

use currency_base::{NoMemory, Tuple, TupleList, laws_of_tuple_order};
use std::alloc::Global;
use std::cmp::Ordering;

// The places of the answers that are none of the tuples, where both ascend. Goes once over both.
pub(crate) fn unprinted(
    alloc: Global,
    answers: &TupleList,
    tuples: &TupleList,
) -> Result<Vec<usize>, NoMemory>
    requires answers { AreAscending answers.now }
    requires tuples { AreAscending tuples.now }
    ensures within { IfOk result (λ left. All (λ place. place < length answers.now) left.items) }
    ensures rest { IfOk result (λ left. IsRest answers.now tuples.now (tuples_at answers.now left.items)) }
{
    laws_of_tuple_order();
    let mut left = Vec::new(alloc);
    let mut from = 0;
    for at in 0..answers.len() {
        let answer = answers.get(at);
        from = first_not_below(tuples, from, answer);
        if !is_at(tuples, from, answer) {
            left.push(at)?;
        }
    }
    Ok(left)
}

// The first place, of one and those after it, whose tuple is not below this one, or the end.
fn first_not_below(tuples: &TupleList, from: usize, tuple: &Tuple) -> usize
    ensures later { from ≤ result }
    ensures below { (j : ℕ) (t : List Value) → from ≤ j → j < result → slice_get tuples.now j ≡ Some t → IsBelow t tuple.now }
    ensures here { (t : List Value) → slice_get tuples.now result ≡ Some t → IsBelow t tuple.now → ⊥ }
{
    let mut at = from;
    while at < tuples.len() && tuples.get(at).order(tuple) == Ordering::Less {
        at += 1;
    }
    at
}

// Does the tuple stand at the place?
fn is_at(tuples: &TupleList, place: usize, tuple: &Tuple) -> bool
    ensures is { result ≡ true → Contains tuples.now tuple.now }
    ensures none { result ≡ false → slice_get tuples.now place ≡ Some tuple.now → ⊥ }
{
    laws_of_tuple_order();
    place < tuples.len() && tuples.get(place).order(tuple) == Ordering::Equal
}
