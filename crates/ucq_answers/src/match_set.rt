ghost use Rattle.std.specs.Prelude.{◌≡◌, ◌≤◌, [], IfOk, length};
ghost use Rattle.ucq_answers.specs.Found.{AddsMatches, IsThis};

use crate::answer_set::Answer;
use currency_base::{ItemList, NoMemory, Tuple};
use query_model::Match;
use std::alloc::Global;
use std::collections::BTreeSet;
use std::marker::Model;

/// Matches by one disjunct, no more than are wanted. Contracts see the bound and the matches.
#[derive(Drop)]
pub(crate) struct MatchSet {
    at_most: usize,
    matches: ItemList<Match>,
    // the values of all variables whose matches are there
    seen: BTreeSet<Answer>,
}

impl Model for MatchSet {
    ghost use Rattle.std.specs.Prelude.{◌≤◌, length};
    ghost use Rattle.ucq_answers.specs.Found.{Wanted};

    ghost Value = { Wanted };

    ghost view = { λ s. record { at_most = s.at_most; matches = s.matches } };

    ghost invariant = { λ s. length s.matches ≤ s.at_most };
}

impl MatchSet {
    /// No match yet.
    pub(crate) fn new(alloc: Global, at_most: usize) -> MatchSet
        ensures { result ≡ record { at_most = at_most; matches = [] } }
    {
        MatchSet {
            at_most,
            matches: ItemList::new(alloc),
            seen: BTreeSet::new(alloc),
        }
    }

    /// How many more matches are wanted.
    pub(crate) fn left(&self) -> usize {
        self.at_most - self.matches.len()
    }

    /// Notes values of all variables, and says whether they are new.
    pub(crate) fn note(&mut self, values: Tuple) -> Result<bool, NoMemory>
        ensures { self.new ≡ self.old }
    {
        Ok(self.seen.insert(Answer::new(values))?)
    }

    /// Adds a match, if one more is wanted, and says whether no further is.
    pub(crate) fn add(&mut self, one: Match) -> Result<bool, NoMemory>
        ensures { IfOk result (λ full. AddsMatches (IsThis one) self.old self.new) }
    {
        if self.matches.len() >= self.at_most {
            return Ok(true);
        }
        self.matches.push(one)?;
        Ok(self.matches.len() >= self.at_most)
    }

    /// The matches.
    pub(crate) fn into_list(self) -> ItemList<Match>
        ensures matches { result ≡ self.matches }
        ensures few { length self.matches ≤ self.at_most }
    {
        let MatchSet { matches, .. } = self;
        matches
    }
}
