ghost use Rattle.std.specs.Prelude.{◌≡◌, ◌≤◌, All, IfOk, IfSome, IfNone, length};
ghost use Rattle.query_model.specs.Answers.{AreAnswers, HasMore, IsAnswer, IsMatch};
ghost use Rattle.query_model.specs.Fitting.{IsQuery};
ghost use Rattle.ucq_answers.specs.Found.{Adds, IsAnswerBy, IsAnswerOf, IsMatchAmong, IsMatchOf};
ghost use Rattle.ucq_answers.specs.Kept.{IsPreparedFor, disjuncts_of};

use crate::answer_set::AnswerSet;
use crate::binding::Binding;
use crate::matching::{disjunct_match, disjunct_matches};
use crate::prepared::PreparedDisjunct;
use crate::relation_index::RelationIndex;
use crate::search::{Search, collect};
use currency_base::{ItemList, NoMemory, Tuple, TupleList};
use query_model::{Match, Query};
use query_plan::{LookedUp, PlannedDisjunct};
use spec_model::Instance;
use std::alloc::Global;
use std::marker::Model;

/// A query and an instance, with the tuples indexed by their values at the places at which the query looks
/// them up. Contracts see the query, and for each relation its tuples.
#[derive(Drop)]
pub struct IndexedInstance<'a> {
    disjuncts: Vec<PreparedDisjunct<'a>>,
    relations: Vec<RelationIndex<'a>>,
}

impl<'a> Model for IndexedInstance<'a> {
    ghost use Rattle.std.specs.Prelude.{All};
    ghost use Rattle.ucq_answers.specs.Kept.{IsPreparedFor, disjuncts_of};
    ghost use Rattle.ucq_answers.specs.Planned.{IndexedQuery};

    ghost Value = { IndexedQuery };

    ghost view = { λ i. record { query = record { disjuncts = disjuncts_of i.disjuncts.items }; instance = i.relations.items } };

    ghost invariant = { λ i. All (IsPreparedFor i.relations.items) i.disjuncts.items };
}

impl<'a> IndexedInstance<'a> {
    /// Makes the indexes, and looks at which tuples can take part in a match, in time in proportion to n log n for n tuples.
    pub fn new(
        alloc: Global,
        query: &'a Query,
        instance: &'a Instance,
    ) -> Result<IndexedInstance<'a>, NoMemory>
        requires { IsQuery query.now }
        ensures { IfOk result (λ indexed. indexed ≡ record { query = query.now; instance = instance.now.relations }) }
    {
        let mut looked_up = Vec::new(alloc);
        let disjuncts = prepared_disjuncts(alloc, query, instance, &mut looked_up)?;
        looked_up.sort_unstable();
        looked_up.dedup();
        let relations = indexed_relations(alloc, instance, &looked_up)?;
        Ok(IndexedInstance {
            disjuncts,
            relations,
        })
    }

    /// All answers, ascending; none, if there are more than `at_most`. Of these no more than one more than
    /// `at_most` are held at a time.
    pub fn answers(&self, alloc: Global, at_most: usize) -> Result<Option<TupleList>, NoMemory>
        ensures all { IfOk result (λ answers. IfSome answers (AreAnswers self.now.query self.now.instance)) }
        ensures few { IfOk result (λ answers. IfSome answers (λ tuples. length tuples ≤ at_most)) }
        ensures more { IfOk result (λ answers. IfNone answers (HasMore self.now.query self.now.instance at_most)) }
    {
        let mut answers = AnswerSet::new(alloc, at_most);
        let _ = collect_all(alloc, &self.relations, &self.disjuncts, &mut answers)?;
        let tuples = answers.into_tuples(alloc)?;
        if tuples.len() > at_most {
            return Ok(None);
        }
        Ok(Some(tuples))
    }

    /// How a tuple is an answer: by the first disjunct by which it is; none, if it is none.
    pub fn match_of(&self, alloc: Global, tuple: &Tuple) -> Result<Option<Match>, NoMemory>
        ensures some { IfOk result (λ found. IfSome found (IsMatch self.now.query self.now.instance tuple.now)) }
        ensures none { IfOk result (λ found. IfNone found (IsAnswer self.now.query self.now.instance tuple.now → ⊥)) }
    {
        first_match(alloc, &self.relations, &self.disjuncts, tuple)
    }

    /// Matches by which a tuple is an answer, at most so many. Where an atom fits several tuples of its relation with the same
    /// values, each is a match of its own.
    pub fn matches_of(
        &self,
        alloc: Global,
        tuple: &Tuple,
        at_most: usize,
    ) -> Result<ItemList<Match>, NoMemory>
        ensures each { IfOk result (λ found. All (IsMatch self.now.query self.now.instance tuple.now) found) }
        ensures few { IfOk result (λ found. length found ≤ at_most) }
    {
        all_matches(alloc, &self.relations, &self.disjuncts, tuple, at_most)
    }
}

// The disjuncts, each planned and prepared. Adds the places at which values are looked up.
fn prepared_disjuncts<'a>(
    alloc: Global,
    query: &'a Query,
    instance: &Instance,
    looked_up: &mut Vec<LookedUp>,
) -> Result<Vec<PreparedDisjunct<'a>>, NoMemory>
    requires { IsQuery query.now }
    ensures same { IfOk result (λ prepared. disjuncts_of prepared.items ≡ query.now.disjuncts) }
    ensures right { IfOk result (λ prepared. All (IsPreparedFor instance.now.relations) prepared.items) }
{
    let mut all = Vec::new(alloc);
    for disjunct in query.disjuncts.as_slice() {
        let planned = PlannedDisjunct::new(alloc, disjunct, looked_up)?;
        all.push(PreparedDisjunct::new(alloc, planned, instance)?)?;
    }
    Ok(all)
}

// The relations, each with indexes by its values at the places at which they are looked up.
fn indexed_relations<'a>(
    alloc: Global,
    instance: &'a Instance,
    looked_up: &[LookedUp],
) -> Result<Vec<RelationIndex<'a>>, NoMemory>
    ensures { IfOk result (λ relations. relations.items ≡ instance.now.relations) }
{
    let mut all = Vec::new(alloc);
    for (relation, tuples) in instance.relations.as_slice().iter().enumerate() {
        let places = places_of(alloc, looked_up, relation)?;
        all.push(RelationIndex::new(alloc, tuples.as_slice(), &places)?)?;
    }
    Ok(all)
}

// The places of a relation at which its values are looked up.
fn places_of(
    alloc: Global,
    looked_up: &[LookedUp],
    relation: usize,
) -> Result<Vec<usize>, NoMemory> {
    let mut places = Vec::new(alloc);
    for one in looked_up {
        if one.relation.0 as usize == relation {
            places.push(one.place)?;
        }
    }
    Ok(places)
}

// Adds the answers by each disjunct, and says whether it stopped since there are too many.
fn collect_all<'a>(
    alloc: Global,
    relations: &'a [RelationIndex<'a>],
    disjuncts: &'a [PreparedDisjunct<'a>],
    answers: &mut AnswerSet,
) -> Result<bool, NoMemory>
    requires { All (IsPreparedFor relations.now) disjuncts.now }
    ensures { IfOk result (Adds (IsAnswerOf (disjuncts_of disjuncts.now) relations.now) answers.old answers.new) }
{
    for prepared in disjuncts {
        if collect_disjunct(alloc, relations, prepared, answers)? {
            return Ok(true);
        }
    }
    Ok(false)
}

// Adds the answers by a disjunct, and says whether it stopped since there are too many.
fn collect_disjunct<'a>(
    alloc: Global,
    relations: &'a [RelationIndex<'a>],
    prepared: &'a PreparedDisjunct<'a>,
    answers: &mut AnswerSet,
) -> Result<bool, NoMemory>
    requires { IsPreparedFor relations.now prepared.now }
    ensures { IfOk result (Adds (IsAnswerBy relations.now prepared.now.disjunct) answers.old answers.new) }
{
    let planned = prepared.planned();
    let conditions = planned.conditions();
    if conditions.is_contrary() {
        return Ok(false);
    }
    if prepared.is_unmatched() {
        return Ok(false);
    }
    let mut values = Binding::new(alloc, planned.vars())?;
    values.spread(conditions.equalities());
    let search = Search {
        relations,
        conditions,
        head: planned.head(),
    };
    let full = collect(alloc, &search, prepared.atoms(), &values, answers)?;
    Ok(full)
}

// How a tuple is an answer by the first disjunct by which it is.
fn first_match<'a>(
    alloc: Global,
    relations: &'a [RelationIndex<'a>],
    disjuncts: &'a [PreparedDisjunct<'a>],
    tuple: &'a Tuple,
) -> Result<Option<Match>, NoMemory>
    requires { All (IsPreparedFor relations.now) disjuncts.now }
    ensures { IfOk result (IsMatchOf (disjuncts_of disjuncts.now) relations.now tuple.now) }
{
    for (place, prepared) in disjuncts.iter().enumerate() {
        let Ok(number) = u32::try_from(place) else {
            return Err(NoMemory);
        };
        if let Some(found) = disjunct_match(alloc, relations, prepared, number, tuple)? {
            return Ok(Some(found));
        }
    }
    Ok(None)
}

// Matches by one disjunct after another by which a tuple is an answer, at most so many.
fn all_matches<'a>(
    alloc: Global,
    relations: &'a [RelationIndex<'a>],
    disjuncts: &'a [PreparedDisjunct<'a>],
    tuple: &'a Tuple,
    at_most: usize,
) -> Result<ItemList<Match>, NoMemory>
    ensures each { IfOk result (λ found. All (IsMatchAmong (disjuncts_of disjuncts.now) relations.now tuple.now) found) }
    ensures few { IfOk result (λ found. length found ≤ at_most) }
{
    let mut all = Vec::new(alloc);
    for (place, prepared) in disjuncts.iter().enumerate() {
        if all.len() >= at_most {
            return Ok(ItemList::from_items(all));
        }
        let Ok(number) = u32::try_from(place) else {
            return Err(NoMemory);
        };
        let left = at_most - all.len();
        let found = disjunct_matches(alloc, relations, prepared, number, tuple, left)?;
        let mut more = found.into_items();
        all.append(&mut more)?;
    }
    Ok(ItemList::from_items(all))
}
