ghost use Rattle.std.specs.Prelude.{◌≡◌, All, IfOk, true, false};
ghost use Rattle.query_model.specs.Answers.{IsAnswer};

use currency_base::{NoMemory, Tuple, TupleList};
use std::alloc::Global;
use ucq_answers::{IndexedInstance, laws_of_answers};

// Is each of the tuples an answer?
pub(crate) fn are_answers(
    alloc: Global,
    indexed: &IndexedInstance<'_>,
    tuples: &TupleList,
) -> Result<bool, NoMemory>
    ensures are { IfOk result (λ are. are ≡ true → All (IsAnswer indexed.now.query indexed.now.instance) tuples.now) }
    ensures none { IfOk result (λ are. are ≡ false → All (IsAnswer indexed.now.query indexed.now.instance) tuples.now → ⊥) }
{
    for tuple in tuples.as_slice() {
        if !is_answer(alloc, indexed, tuple)? {
            return Ok(false);
        }
    }
    Ok(true)
}

// Is the tuple an answer?
pub(crate) fn is_answer(
    alloc: Global,
    indexed: &IndexedInstance<'_>,
    tuple: &Tuple,
) -> Result<bool, NoMemory>
    ensures is { IfOk result (λ is. is ≡ true → IsAnswer indexed.now.query indexed.now.instance tuple.now) }
    ensures none { IfOk result (λ is. is ≡ false → IsAnswer indexed.now.query indexed.now.instance tuple.now → ⊥) }
{
    laws_of_answers();
    match indexed.match_of(alloc, tuple)? {
        Some(_) => Ok(true),
        None => Ok(false),
    }
}
