ghost use Rattle.std.specs.Prelude.{◌≡◌, ◌<◌, ◌↔◌, [], true, Contains, IsTrue, IfOk, OnOk, OnErr, length};
ghost use Rattle.std.specs.Cmp.Lexicographic.{slice_cmp};
ghost use Rattle.std.specs.BTreeSet.{insert_key};
ghost use Rattle.currency_base.specs.Values.{value_cmp};
ghost use Rattle.query_model.specs.Answers.{AreAscending};

use currency_base::{NoMemory, Tuple, TupleList};
use std::alloc::Global;
use std::cmp::Ordering;
use std::collections::BTreeSet;
use std::marker::Model;

/// A tuple, in the order of tuples.
#[derive(Drop)]
pub(crate) struct Answer {
    tuple: Tuple,
}

impl Model for Answer {
    ghost use Rattle.ucq_answers.specs.Shapes.{TupleValues};

    ghost Value = { TupleValues };

    ghost view = { λ a. a.tuple };
}

impl Answer {
    /// A tuple.
    pub(crate) fn new(tuple: Tuple) -> Answer
        ensures { result ≡ tuple }
    {
        Answer { tuple }
    }
}

impl PartialEq for Answer {
    ghost use Rattle.std.specs.Ordering.{eq_by_cmp};
    ghost use Rattle.std.specs.Cmp.Lexicographic.{slice_cmp};
    ghost use Rattle.std.specs.Cmp.Rules.{comparing};
    ghost use Rattle.std.proofs.Common.{rules};
    ghost use Rattle.currency_base.specs.Values.{value_cmp};
    ghost use Rattle.ucq_answers.specs.TupleOrder.{tuple_total};

    ghost eq = { eq_by_cmp (slice_cmp value_cmp) };

    ghost laws = { Prim.search (comparing, rules, tuple_total) };

    fn eq(&self, other: &Answer) -> bool {
        self.tuple.order(&other.tuple) == Ordering::Equal
    }
}

impl Eq for Answer {
    ghost use Rattle.std.specs.Cmp.Rules.{comparing};
    ghost use Rattle.std.proofs.Common.{rules};
    ghost use Rattle.ucq_answers.specs.TupleOrder.{tuple_total};

    ghost laws = { Prim.search (comparing, rules, tuple_total) };
}

impl PartialOrd for Answer {
    ghost use Rattle.std.specs.Ordering.{as_partial_cmp};
    ghost use Rattle.std.specs.Cmp.Lexicographic.{slice_cmp};
    ghost use Rattle.std.specs.Cmp.{partial_order_from_own_ties};
    ghost use Rattle.std.specs.Cmp.Rules.{comparing};
    ghost use Rattle.std.proofs.Common.{rules};
    ghost use Rattle.currency_base.specs.Values.{value_cmp};
    ghost use Rattle.ucq_answers.specs.TupleOrder.{tuple_total};

    ghost partial_cmp = { as_partial_cmp (slice_cmp value_cmp) };

    ghost laws = { partial_order_from_own_ties (Prim.search (comparing, rules, tuple_total))
        (Prim.search (comparing, rules, tuple_total)) };

    fn partial_cmp(&self, other: &Answer) -> Option<Ordering> {
        Some(self.cmp(other))
    }
}

impl Ord for Answer {
    ghost use Rattle.std.specs.Cmp.Lexicographic.{slice_cmp};
    ghost use Rattle.std.specs.Cmp.Rules.{comparing};
    ghost use Rattle.std.proofs.Common.{rules};
    ghost use Rattle.currency_base.specs.Values.{value_cmp};
    ghost use Rattle.ucq_answers.specs.TupleOrder.{tuple_total};

    ghost cmp = { slice_cmp value_cmp };

    ghost total = { tuple_total };

    ghost matches_partial_cmp = { Prim.search (comparing, rules, tuple_total) };

    ghost matches_eq = { Prim.search (comparing, rules, tuple_total) };

    fn cmp(&self, other: &Answer) -> Ordering {
        self.tuple.order(&other.tuple)
    }
}

/// Tuples, each once, with a bound on how many are wanted. Contracts see the bound and the tuples, which
/// ascend.
#[derive(Drop)]
pub(crate) struct AnswerSet {
    at_most: usize,
    answers: BTreeSet<Answer>,
}

impl Model for AnswerSet {
    ghost use Rattle.ucq_answers.specs.Found.{Bounded};

    ghost Value = { Bounded };

    ghost view = { λ a. record { at_most = a.at_most; tuples = a.answers.keys } };
}

impl AnswerSet {
    /// No tuple yet.
    pub(crate) fn new(alloc: Global, at_most: usize) -> AnswerSet
        ensures { result ≡ record { at_most = at_most; tuples = [] } }
    {
        AnswerSet {
            at_most,
            answers: BTreeSet::new(alloc),
        }
    }

    /// Is a tuple one of them?
    pub(crate) fn has(&self, answer: &Answer) -> bool
        ensures { result ≡ true → Contains self.now.tuples answer.now }
    {
        self.answers.contains(answer)
    }

    /// Adds a tuple, and says whether there are too many now.
    pub(crate) fn add(&mut self, answer: Answer) -> Result<bool, NoMemory>
        ensures bound { self.new.at_most ≡ self.old.at_most }
        ensures tuples { OnOk result (self.new.tuples ≡ insert_key (slice_cmp value_cmp) self.old.tuples answer) }
        ensures full { IfOk result (λ full. IsTrue full ↔ (self.new.at_most < length self.new.tuples)) }
    {
        self.answers.insert(answer)?;
        Ok(self.at_most < self.answers.len())
    }

    /// The tuples.
    pub(crate) fn into_tuples(self, alloc: Global) -> Result<TupleList, NoMemory>
        ensures tuples { IfOk result (λ tuples. tuples ≡ self.tuples) }
        ensures ascending { AreAscending self.tuples }
    {
        let AnswerSet { answers, .. } = self;
        let count = answers.len();
        let mut tuples = Vec::with_capacity(alloc, count)?;
        for answer in answers {
            let Answer { tuple } = answer;
            tuples.push(tuple)?;
        }
        Ok(TupleList::from_items(tuples))
    }
}
