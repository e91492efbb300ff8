ghost use Rattle.std.specs.Prelude.{◌≡◌, ◌<◌, ◌≤◌, ◌^◌, ◌∷◌, ℕ, List, [], All, IfOk, IfSome, IfNone, OnOk, Some, Err, true, false, length, replicate, slice_get};
ghost use Rattle.currency_base.specs.declared.value.Value.{Value};
ghost use Rattle.spec_model.specs.Completion.{Rankings};
ghost use Rattle.query_model.specs.Answers.{IsAnswer};
ghost use Rattle.query_model.specs.Fitting.{IsQuery};
ghost use Rattle.query_model.specs.declared.query.Query.{Query as Queries};
ghost use Rattle.spec_model.specs.Consistent.{IsConsistent};
ghost use Rattle.spec_model.specs.Spec.{Spec};
ghost use Rattle.answer_candidates.specs.Candidates.{AreAnswersIn, AreCandidates, IsOver, IsTooMany, left_of, tuples_at};
ghost use Rattle.answer_candidates.specs.declared.candidates.CandidateFault.TheVariants as fault;

use crate::left::{PlaceList, copied, left, tuples_at};
use crate::marks::{Marks, marked};
use answer_laws::instances_exist;
use currency_base::{ItemList, NoMemory, TupleList};
use current_tuples::current;
use query_model::Query;
use spec_model::{Completion, Specification};
use std::alloc::Global;
use std::marker::Model;
use ucq_answers::IndexedInstance;

// The most answers that are gone through.
const MOST_ANSWERS: usize = 1_000_000;

/// Completions, in the order in which they are listed.
pub type CompletionList = ItemList<Completion>;

/// Why there are no candidates.
#[derive(Drop)]
pub enum CandidateFault {
    /// The query has more than 1,000,000 answers over this completion.
    TooMany(Completion),
    NoMemory,
}

/// The answers of a query over the first of some completions, and which of them are answers over each of these. Contracts
/// see the tuples, the completions, and which tuples are gone.
#[derive(Drop)]
pub struct Candidates {
    tuples: TupleList,
    completions: CompletionList,
    gone: Vec<bool>,
}

impl Model for Candidates {
    ghost use Rattle.answer_candidates.specs.Candidates.{Standing};

    ghost Value = { Standing };

    ghost view = { λ c. record { tuples = c.tuples; completions = c.completions; gone = c.gone.items } };
}

impl Candidates {
    /// The answers over a completion, ascending. It is listed, and none of them is gone.
    pub fn new(
        alloc: Global,
        spec: &Specification,
        query: &Query,
        completion: Completion,
    ) -> Result<Candidates, CandidateFault>
        requires query { IsQuery query.now }
        requires consistent { IsConsistent spec.now completion }
        ensures held { IfOk result (AreCandidates spec.now query.now) }
        ensures over { IfOk result (λ c. AreAnswersIn spec.now.relations query.now completion c.tuples) }
        ensures few { IfOk result (λ c. length c.tuples ≤ 1000000) }
        ensures listed { IfOk result (λ c. c.completions ≡ completion ∷ []) }
        ensures too_many { (c : Rankings) → result ≡ Err (fault.TooMany c) → (c ≡ completion) × IsTooMany
            spec.now.relations query.now 1000000 c }
    {
        instances_exist();
        match answers_over(alloc, spec, query, &completion) {
            Ok(Some(tuples)) => match begun(alloc, tuples, completion) {
                Ok(candidates) => Ok(candidates),
                Err(_) => Err(CandidateFault::NoMemory),
            },
            Ok(None) => Err(CandidateFault::TooMany(completion)),
            Err(_) => Err(CandidateFault::NoMemory),
        }
    }

    /// The tuples.
    pub fn tuples(&self) -> &TupleList
        ensures { result.now ≡ self.now.tuples }
    {
        &self.tuples
    }

    /// Equal tuples.
    pub fn copied(&self, alloc: Global) -> Result<TupleList, NoMemory>
        ensures { IfOk result (λ tuples. tuples ≡ self.now.tuples) }
    {
        copied(alloc, &self.tuples)
    }

    /// The completion that was listed first.
    pub fn first(&self) -> &Completion
        requires { 0 < length self.now.completions }
        ensures { slice_get self.now.completions 0 ≡ Some result.now }
    {
        self.completions.get(0)
    }

    /// Is the tuple at a place no answer over one of the listed completions?
    pub fn is_gone(&self, place: usize) -> bool
        requires { place < length self.now.gone }
        ensures { slice_get self.now.gone place ≡ Some result }
    {
        self.gone[place]
    }

    /// Notes which tuples are no answers over one more consistent completion, whose current instance is indexed. It is
    /// listed, if one of these was not gone before.
    pub fn note(
        &mut self,
        alloc: Global,
        indexed: &IndexedInstance<'_>,
        completion: Completion,
    ) -> Result<(), NoMemory>
        requires { length self.old.gone ≡ length self.old.tuples }
        ensures tuples { self.new.tuples ≡ self.old.tuples }
        ensures per_tuple { length self.new.gone ≡ length self.old.gone }
        ensures held { (s : Spec) (query : Queries) → AreCandidates s query self.old → IsConsistent s completion
            → IsOver s.relations query completion indexed.now → OnOk result (AreCandidates s query self.new) }
        ensures stays { (place : ℕ) → slice_get self.old.gone place ≡ Some true → OnOk result
            (slice_get self.new.gone place ≡ Some true) }
        ensures noted { (place : ℕ) (tuple : List Value) → slice_get self.old.tuples place ≡ Some tuple
            → (IsAnswer indexed.now.query indexed.now.instance tuple → ⊥) → OnOk result
            (slice_get self.new.gone place ≡ Some true) }
    {
        instances_exist();
        match marked(alloc, self.tuples.as_slice(), indexed, self.gone.as_slice()) {
            Ok(Marks { gone, more }) => {
                self.gone = gone;
                if !more {
                    return Ok(());
                }
                match self.completions.push(completion) {
                    Ok(()) => Ok(()),
                    Err(error) => Err(error),
                }
            }
            Err(error) => Err(error),
        }
    }

    /// The places of the tuples that are not gone, ascending.
    pub fn left(&self, alloc: Global) -> Result<PlaceList, NoMemory>
        requires { length self.now.gone < 2 ^ 32 }
        ensures { IfOk result (λ places. places ≡ left_of self.now.gone) }
    {
        left(alloc, self.gone.as_slice())
    }

    /// The tuples at these places.
    pub fn tuples_at(&self, alloc: Global, places: &PlaceList) -> Result<TupleList, NoMemory>
        requires { All (λ place. place < length self.now.tuples) places.now }
        ensures { IfOk result (λ tuples. tuples ≡ tuples_at self.now.tuples places.now) }
    {
        tuples_at(alloc, &self.tuples, places)
    }

    /// The listed completions, which are all that is left.
    pub fn into_completions(self) -> CompletionList
        ensures { result ≡ self.completions }
    {
        self.completions
    }
}

// The answers over a completion; none, if they are more than are gone through.
fn answers_over(
    alloc: Global,
    spec: &Specification,
    query: &Query,
    completion: &Completion,
) -> Result<Option<TupleList>, NoMemory>
    requires query { IsQuery query.now }
    requires consistent { IsConsistent spec.now completion.now }
    ensures found { IfOk result (λ found. IfSome found (AreAnswersIn spec.now.relations query.now completion.now)) }
    ensures few { IfOk result (λ found. IfSome found (λ tuples. length tuples ≤ 1000000)) }
    ensures more { IfOk result (λ found. IfNone found (IsTooMany spec.now.relations query.now 1000000 completion.now)) }
{
    let instance = match current(alloc, spec, completion) {
        Ok(instance) => instance,
        Err(error) => return Err(error),
    };
    let indexed = match IndexedInstance::new(alloc, query, &instance) {
        Ok(indexed) => indexed,
        Err(error) => return Err(error),
    };
    indexed.answers(alloc, MOST_ANSWERS)
}

// Candidates of which none is gone.
fn begun(alloc: Global, tuples: TupleList, completion: Completion) -> Result<Candidates, NoMemory>
    ensures { IfOk result (λ c. c ≡ record {
      tuples = tuples;
      completions = completion ∷ [];
      gone = replicate
          (length tuples) false;
    }) }
{
    let gone = match Vec::from_elem(alloc, false, tuples.len()) {
        Ok(gone) => gone,
        Err(_) => return Err(NoMemory),
    };
    let mut completions = CompletionList::new(alloc);
    match completions.push(completion) {
        Ok(()) => Ok(Candidates {
            tuples,
            completions,
            gone,
        }),
        Err(error) => Err(error),
    }
}
