ghost use Rattle.std.specs.Prelude.{◌≡◌, ◌<◌, ◌↔◌, [], IsTrue, IfOk, OnOk, length};
ghost use Rattle.std.specs.BTreeSet.{insert_key};
ghost use Rattle.match_candidates.specs.Matches.{MatchesAscend, match_cmp};

use currency_base::{ItemList, NoMemory};
use query_model::Match;
use std::alloc::Global;
use std::cmp::Ordering;
use std::collections::BTreeSet;
use std::marker::Model;

/// A match, in the order of matches.
#[derive(Drop)]
struct Held {
    one: Match,
}

impl Model for Held {
    ghost use Rattle.query_model.specs.declared.query.Match.{Match};

    ghost Value = { Match };

    ghost view = { λ h. h.one };
}

impl PartialEq for Held {
    ghost use Rattle.std.specs.Ordering.{eq_by_cmp};
    ghost use Rattle.std.specs.Cmp.Rules.{comparing};
    ghost use Rattle.std.proofs.Common.{rules};
    ghost use Rattle.match_candidates.specs.MatchOrder.{match_total};
    ghost use Rattle.match_candidates.specs.Matches.{match_cmp};

    ghost eq = { eq_by_cmp match_cmp };

    ghost laws = { Prim.search (comparing, rules, match_total) };

    fn eq(&self, other: &Held) -> bool {
        self.cmp(other) == Ordering::Equal
    }
}

impl Eq for Held {
    ghost use Rattle.std.specs.Cmp.Rules.{comparing};
    ghost use Rattle.std.proofs.Common.{rules};
    ghost use Rattle.match_candidates.specs.MatchOrder.{match_total};

    ghost laws = { Prim.search (comparing, rules, match_total) };
}

impl PartialOrd for Held {
    ghost use Rattle.std.specs.Ordering.{as_partial_cmp};
    ghost use Rattle.std.specs.Cmp.{partial_order_from_own_ties};
    ghost use Rattle.std.specs.Cmp.Rules.{comparing};
    ghost use Rattle.std.proofs.Common.{rules};
    ghost use Rattle.match_candidates.specs.MatchOrder.{match_total};
    ghost use Rattle.match_candidates.specs.Matches.{match_cmp};

    ghost partial_cmp = { as_partial_cmp match_cmp };

    ghost laws = { partial_order_from_own_ties (Prim.search (comparing, rules, match_total))
        (Prim.search (comparing, rules)) };

    fn partial_cmp(&self, other: &Held) -> Option<Ordering> {
        Some(self.cmp(other))
    }
}

impl Ord for Held {
    ghost use Rattle.std.specs.Cmp.Rules.{comparing};
    ghost use Rattle.std.proofs.Common.{rules};
    ghost use Rattle.match_candidates.specs.MatchOrder.{match_total};
    ghost use Rattle.match_candidates.specs.Matches.{match_cmp};

    ghost cmp = { match_cmp };

    ghost total = { match_total };

    ghost matches_partial_cmp = { Prim.search (comparing, rules) };

    ghost matches_eq = { Prim.search (comparing, rules) };

    fn cmp(&self, other: &Held) -> Ordering {
        order_of(&self.one, &other.one)
    }
}

// The order of matches: by their disjuncts, then by their entities, and then by their values.
fn order_of(a: &Match, b: &Match) -> Ordering
    ensures { result ≡ match_cmp a.now b.now }
{
    a.disjunct
        .cmp(&b.disjunct)
        .then(a.entities.as_slice().cmp(b.entities.as_slice()))
        .then(a.values.order(&b.values))
}

/// Matches, each once, with a bound on how many are wanted. Contracts see the bound and the matches, which ascend.
#[derive(Drop)]
pub(crate) struct MatchSet {
    most: usize,
    held: BTreeSet<Held>,
}

impl Model for MatchSet {
    ghost use Rattle.match_candidates.specs.Found.{Bounded};

    ghost Value = { Bounded };

    ghost view = { λ s. record { most = s.most; matches = s.held.keys } };
}

impl MatchSet {
    /// No match yet.
    pub(crate) fn new(alloc: Global, most: usize) -> MatchSet
        ensures { result ≡ record { most = most; matches = [] } }
    {
        MatchSet {
            most,
            held: BTreeSet::new(alloc),
        }
    }

    /// Adds a match, and says whether there are too many now.
    pub(crate) fn add(&mut self, one: Match) -> Result<bool, NoMemory>
        ensures bound { self.new.most ≡ self.old.most }
        ensures matches { OnOk result (self.new.matches ≡ insert_key match_cmp self.old.matches one) }
        ensures full { IfOk result (λ full. IsTrue full ↔ (self.new.most < length self.new.matches)) }
    {
        self.held.insert(Held { one })?;
        Ok(self.most < self.held.len())
    }

    /// The matches.
    pub(crate) fn into_list(self, alloc: Global) -> Result<ItemList<Match>, NoMemory>
        ensures matches { IfOk result (λ list. list ≡ self.matches) }
        ensures ascend { MatchesAscend self.matches }
    {
        let MatchSet { held, .. } = self;
        let count = held.len();
        let mut list = Vec::with_capacity(alloc, count)?;
        for next in held {
            let Held { one } = next;
            list.push(one)?;
        }
        Ok(ItemList::from_items(list))
    }
}
