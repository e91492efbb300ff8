ghost use Rattle.std.specs.Prelude.{◌≡◌, ◌<◌, [], All, IfOk, OnOk, length, true, false};
ghost use Rattle.common_answers.specs.Candidates.{IsKept, IsRest, tuples_at};
ghost use Rattle.query_model.specs.Answers.{AreAscending, IsAnswer};

use crate::merging::unprinted;
use crate::printed::is_answer;
use currency_base::{NoMemory, TupleList};
use std::alloc::Global;
use std::marker::Model;
use ucq_answers::IndexedInstance;

// Some of the answers over an instance, by their places. Contracts see these tuples.
#[derive(Drop)]
pub(crate) struct Candidates {
    answers: TupleList,
    left: Vec<usize>,
}

impl Model for Candidates {
    ghost use Rattle.std.specs.Prelude.{◌<◌, All, length};
    ghost use Rattle.common_answers.specs.Candidates.{Tuples, tuples_at};

    ghost Value = { Tuples };

    ghost view = { λ c. tuples_at c.answers c.left.items };

    ghost invariant = { λ c. All (λ place. place < length c.answers) c.left.items };
}

impl Candidates {
    // The answers that are none of the tuples, where both ascend.
    pub(crate) fn new(
        alloc: Global,
        answers: TupleList,
        tuples: &TupleList,
    ) -> Result<Candidates, NoMemory>
        requires answers { AreAscending answers }
        requires tuples { AreAscending tuples.now }
        ensures { IfOk result (IsRest answers tuples.now) }
    {
        let left = unprinted(alloc, &answers, tuples)?;
        Ok(Candidates { answers, left })
    }

    // Takes out those that are no answers.
    pub(crate) fn keep(
        &mut self,
        alloc: Global,
        indexed: &IndexedInstance<'_>,
    ) -> Result<(), NoMemory>
        ensures { OnOk result (IsKept (IsAnswer indexed.now.query indexed.now.instance) self.old self.new) }
    {
        self.left = still_answers(alloc, indexed, &self.answers, &self.left)?;
        Ok(())
    }

    // Is none left?
    pub(crate) fn is_empty(&self) -> bool
        ensures none { result ≡ true → self.now ≡ [] }
        ensures some { result ≡ false → self.now ≡ [] → ⊥ }
    {
        self.left.is_empty()
    }
}

// Those of the tuples at these places that are answers.
fn still_answers(
    alloc: Global,
    indexed: &IndexedInstance<'_>,
    tuples: &TupleList,
    places: &[usize],
) -> Result<Vec<usize>, NoMemory>
    requires { All (λ place. place < length tuples.now) places.now }
    ensures within { IfOk result (λ kept. All (λ place. place < length tuples.now) kept.items) }
    ensures kept { IfOk result (λ kept. IsKept (IsAnswer indexed.now.query indexed.now.instance)
        (tuples_at tuples.now places.now) (tuples_at tuples.now kept.items)) }
{
    let mut kept = Vec::new(alloc);
    for place in places {
        if is_answer(alloc, indexed, tuples.get(*place))? {
            kept.push(*place)?;
        }
    }
    Ok(kept)
}
