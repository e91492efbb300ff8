ghost use Rattle.std.specs.Prelude.{◌≡◌, All, List, Option, IfOk, IfSome, option_and_then, option_map, slice_get};
ghost use Rattle.ucq_answers.specs.Lookups.{AreCandidates, ListsAll};
ghost use Rattle.ucq_answers.specs.Partly.{asked_at, asked_by, fit};

use crate::binding::Binding;
use crate::bounds::bounded;
use crate::fitting::fitted;
use crate::place_index::PlaceIndex;
use currency_base::{EntId, NoMemory, Tuple, Value};
use query_model::{Term, Test};
use std::alloc::Global;
use std::marker::Model;

/// The tuples of a relation, with indexes by their values at some places. Contracts see the tuples.
#[derive(Drop)]
pub(crate) struct RelationIndex<'a> {
    tuples: &'a [Tuple],
    // the places of all tuples
    all: Vec<EntId>,
    by_place: Vec<PlaceIndex<'a>>,
}

impl<'a> Model for RelationIndex<'a> {
    ghost use Rattle.ucq_answers.specs.Lookups.{IsRelationIndex};
    ghost use Rattle.ucq_answers.specs.Shapes.{RelationTuples};

    ghost Value = { RelationTuples };

    ghost view = { λ r. r.tuples.now };

    ghost invariant = { λ r. IsRelationIndex r.tuples.now r.all.items r.by_place.items };
}

impl<'a> RelationIndex<'a> {
    /// The tuples of a relation, with indexes by their values at these places. More than 2^32 tuples are
    /// more than memory holds.
    pub(crate) fn new(
        alloc: Global,
        tuples: &'a [Tuple],
        places: &[usize],
    ) -> Result<RelationIndex<'a>, NoMemory>
        ensures { IfOk result (λ index. index ≡ tuples.now) }
    {
        let all = all_places(alloc, tuples)?;
        let by_place = indexes_of(alloc, tuples, &all, places)?;
        Ok(RelationIndex {
            tuples,
            all,
            by_place,
        })
    }

    /// The places of tuples among which all are that terms can fit with no comparison failing: those that have one
    /// of the values that the terms ask for, or whose values the comparisons allow, if some are known, and else all.
    pub(crate) fn candidates(&self, tests: &[Test], terms: &[Term], values: &Binding) -> &[EntId]
        ensures { AreCandidates self.now tests.now terms.now values.now result.now }
    {
        let mut best = self.all.as_slice();
        for index in &self.by_place {
            best = shorter(best, index, tests, terms, values);
        }
        best
    }

    /// The values once terms fit a tuple, if they can.
    pub(crate) fn fit(
        &self,
        alloc: Global,
        ent: EntId,
        terms: &'a [Term],
        values: &Binding<'a>,
    ) -> Result<Option<Binding<'a>>, NoMemory>
        ensures { IfOk result (λ next. next ≡ option_and_then (λ tuple. fit values.now terms.now tuple)
            (slice_get self.now ent.0)) }
    {
        match self.tuples.get(ent.0 as usize) {
            Some(tuple) => fitted(alloc, values, terms, tuple.as_slice()),
            None => Ok(None),
        }
    }
}

// The tuples that an index finds, if it is asked and they are fewer.
fn shorter<'a>(
    best: &'a [EntId],
    index: &'a PlaceIndex<'a>,
    tests: &[Test],
    terms: &[Term],
    values: &Binding,
) -> &'a [EntId]
    requires { AreCandidates index.now.tuples tests.now terms.now values.now best.now }
    ensures { AreCandidates index.now.tuples tests.now terms.now values.now result.now }
{
    let Some(found) = found_by(index, tests, terms, values) else {
        return best;
    };
    if found.len() < best.len() {
        found
    } else {
        best
    }
}

// The tuples that an index finds, if it is asked: those that have the value that the terms ask for, or else those
// whose values the comparisons allow.
fn found_by<'a>(
    index: &'a PlaceIndex<'a>,
    tests: &[Test],
    terms: &[Term],
    values: &Binding,
) -> Option<&'a [EntId]>
    ensures { IfSome result (λ found. AreCandidates index.now.tuples tests.now terms.now values.now found.now) }
{
    match asked_at(values, terms, index.place()) {
        Some(value) => Some(index.alike(value)),
        None => bounded(index, tests, terms, values),
    }
}

// The value that terms ask for at a place, if it is known.
fn asked_at<'b>(values: &Binding<'b>, terms: &'b [Term], place: usize) -> Option<&'b Value>
    ensures { option_map (λ v. v.now) result ≡ asked_at values.now terms.now place }
{
    match terms.get(place) {
        Some(term) => asked_by(values, term),
        None => None,
    }
}

// The value that a term asks for, if it is known.
fn asked_by<'b>(values: &Binding<'b>, term: &'b Term) -> Option<&'b Value>
    ensures { option_map (λ v. v.now) result ≡ asked_by values.now term.now }
{
    match term {
        Term::Var(var) => values.value(*var),
        Term::Any => None,
        Term::Constant(constant) => Some(constant),
    }
}

// The places of all tuples.
fn all_places(alloc: Global, tuples: &[Tuple]) -> Result<Vec<EntId>, NoMemory>
    ensures { IfOk result (λ all. ListsAll tuples.now all.items) }
{
    let mut all = Vec::with_capacity(alloc, tuples.len())?;
    for place in 0..tuples.len() {
        let Ok(place) = u32::try_from(place) else {
            return Err(NoMemory);
        };
        all.push(EntId(place))?;
    }
    Ok(all)
}

// An index for each of these places.
fn indexes_of<'a>(
    alloc: Global,
    tuples: &'a [Tuple],
    all: &[EntId],
    places: &[usize],
) -> Result<Vec<PlaceIndex<'a>>, NoMemory>
    requires { ListsAll tuples.now all.now }
    ensures { IfOk result (λ indexes. All (λ index. index.tuples ≡ tuples.now) indexes.items) }
{
    let mut indexes = Vec::new(alloc);
    for place in places {
        indexes.push(PlaceIndex::new(alloc, tuples, all, *place)?)?;
    }
    Ok(indexes)
}
