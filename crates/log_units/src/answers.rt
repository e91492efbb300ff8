ghost use Rattle.std.specs.Prelude.{◌≡◌, true, [], Contains, OnOk, option_map};
ghost use Rattle.log_units.specs.Said.{Adds};

use currency_base::{NoMemory, Tuple, laws_of_tuple_order};
use std::alloc::Global;
use std::cmp::Ordering;
use std::collections::BTreeSet;
use std::marker::Model;

/// A tuple, in the order of tuples.
#[derive(Drop)]
struct SaidTuple<'a> {
    tuple: &'a Tuple,
}

impl<'a> Model for SaidTuple<'a> {
    ghost use Rattle.log_units.specs.Said.{TupleValues};

    ghost Value = { TupleValues };

    ghost view = { λ s. s.tuple.now };
}

impl<'a> PartialEq for SaidTuple<'a> {
    ghost use Rattle.std.specs.Ordering.{eq_by_cmp};
    ghost use Rattle.std.specs.Cmp.Lexicographic.{slice_cmp};
    ghost use Rattle.std.specs.Cmp.Rules.{comparing};
    ghost use Rattle.std.proofs.Common.{rules};
    ghost use Rattle.currency_base.specs.Values.{value_cmp};
    ghost use Rattle.ucq_answers.specs.TupleOrder.{tuple_total};

    ghost eq = { eq_by_cmp (slice_cmp value_cmp) };

    ghost laws = { Prim.search (comparing, rules, tuple_total) };

    fn eq(&self, other: &SaidTuple<'a>) -> bool {
        self.tuple.order(other.tuple) == Ordering::Equal
    }
}

impl<'a> Eq for SaidTuple<'a> {
    ghost use Rattle.std.specs.Cmp.Rules.{comparing};
    ghost use Rattle.std.proofs.Common.{rules};
    ghost use Rattle.ucq_answers.specs.TupleOrder.{tuple_total};

    ghost laws = { Prim.search (comparing, rules, tuple_total) };
}

impl<'a> PartialOrd for SaidTuple<'a> {
    ghost use Rattle.std.specs.Ordering.{as_partial_cmp};
    ghost use Rattle.std.specs.Cmp.Lexicographic.{slice_cmp};
    ghost use Rattle.std.specs.Cmp.{partial_order_from_own_ties};
    ghost use Rattle.std.specs.Cmp.Rules.{comparing};
    ghost use Rattle.std.proofs.Common.{rules};
    ghost use Rattle.currency_base.specs.Values.{value_cmp};
    ghost use Rattle.ucq_answers.specs.TupleOrder.{tuple_total};

    ghost partial_cmp = { as_partial_cmp (slice_cmp value_cmp) };

    ghost laws = { partial_order_from_own_ties (Prim.search (comparing, rules, tuple_total))
        (Prim.search (comparing, rules, tuple_total)) };

    fn partial_cmp(&self, other: &SaidTuple<'a>) -> Option<Ordering> {
        Some(self.cmp(other))
    }
}

impl<'a> Ord for SaidTuple<'a> {
    ghost use Rattle.std.specs.Cmp.Lexicographic.{slice_cmp};
    ghost use Rattle.std.specs.Cmp.Rules.{comparing};
    ghost use Rattle.std.proofs.Common.{rules};
    ghost use Rattle.currency_base.specs.Values.{value_cmp};
    ghost use Rattle.ucq_answers.specs.TupleOrder.{tuple_total};

    ghost cmp = { slice_cmp value_cmp };

    ghost total = { tuple_total };

    ghost matches_partial_cmp = { Prim.search (comparing, rules, tuple_total) };

    ghost matches_eq = { Prim.search (comparing, rules, tuple_total) };

    fn cmp(&self, other: &SaidTuple<'a>) -> Ordering {
        self.tuple.order(other.tuple)
    }
}

/// The tuples that units say to be answers, in their order. Contracts see them as a list.
#[derive(Drop)]
pub(crate) struct SaidAnswers<'a> {
    set: BTreeSet<SaidTuple<'a>>,
}

impl<'a> Model for SaidAnswers<'a> {
    ghost use Rattle.log_units.specs.Said.{Tuples};

    ghost Value = { Tuples };

    ghost view = { λ a. a.set.keys };
}

impl<'a> SaidAnswers<'a> {
    /// No tuple.
    pub(crate) fn new(alloc: Global) -> SaidAnswers<'a>
        ensures { result ≡ [] }
    {
        SaidAnswers {
            set: BTreeSet::new(alloc),
        }
    }

    /// Notes a tuple, if there is one.
    pub(crate) fn note(&mut self, tuple: Option<&'a Tuple>) -> Result<(), NoMemory>
        ensures { OnOk result (Adds (Contains self.old) (Contains self.new) (option_map (λ t. t.now) tuple.entry)) }
    {
        laws_of_tuple_order();
        match tuple {
            Some(tuple) => {
                self.set.insert(SaidTuple { tuple })?;
                Ok(())
            }
            None => Ok(()),
        }
    }

    /// Is the tuple among them?
    pub(crate) fn has(&self, tuple: &'a Tuple) -> bool
        ensures is_there { result ≡ true → Contains self.now tuple.now }
        ensures is_found { Contains self.now tuple.now → result ≡ true }
    {
        laws_of_tuple_order();
        self.set.contains(&SaidTuple { tuple })
    }
}
