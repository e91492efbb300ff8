//! Tuples, each once and ascending.

ghost use Rattle.std.specs.Prelude.{◌≡◌, ◌-◌, List, Contains, IfOk, length, slice_get};
ghost use Rattle.std.specs.List.Sorted.{IsPermutation, IsSortedBy};
ghost use Rattle.currency_base.specs.declared.value.Value.{Value};
ghost use Rattle.possible_answers.specs.Distinct.{AreDistinct, distinct_after, is_below, is_past};
ghost use Rattle.std.specs.Prelude.{None};

use currency_base::{NoMemory, Tuple, TupleList, laws_of_tuple_order};
use std::alloc::Global;
use std::cmp::Ordering;

/// These tuples, each once and ascending.
pub(crate) fn distinct(alloc: Global, tuples: Vec<Tuple>) -> Result<TupleList, NoMemory>
    ensures { IfOk result (AreDistinct tuples.items) }
{
    laws_of_tuple_order();
    let ascending = sorted(tuples)?;
    without_repeats(alloc, ascending)
}

/// The tuples in their order.
fn sorted(tuples: Vec<Tuple>) -> Result<Vec<Tuple>, NoMemory>
    ensures same { IfOk result (λ list. IsPermutation tuples.items list.items) }
    ensures ascending { IfOk result (λ list. IsSortedBy is_below list.items) }
{
    let mut list = tuples;
    list.sort_by(|a, b| a.order(b))?;
    Ok(list)
}

/// The tuples without those that are not above the one that was kept last.
#[tactic(auto, using(crate::proofs::Sorted::one_kept))]
fn without_repeats(alloc: Global, tuples: Vec<Tuple>) -> Result<TupleList, NoMemory>
    ensures { IfOk result (λ list. list ≡ distinct_after None tuples.items) }
{
    let mut list = TupleList::new(alloc);
    for tuple in tuples {
        if is_past(&list, &tuple) {
            list.push(tuple)?;
        }
    }
    Ok(list)
}

/// Is the tuple above the last one?
fn is_past(list: &TupleList, tuple: &Tuple) -> bool
    ensures { result ≡ is_past (slice_get list.now (length list.now - 1)) tuple.now }
{
    match list.as_slice().last() {
        Some(last) => last.order(tuple) == Ordering::Less,
        None => true,
    }
}
