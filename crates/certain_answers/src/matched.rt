ghost use Rattle.std.specs.Prelude.{◌≡◌, ◌<◌, All, IfOk, IfNone, IfSome, Some, length, slice_get, true};
ghost use Rattle.answer_laws.specs.Answered.{IsAnswerIn};
ghost use Rattle.match_clauses.specs.Matched.{IsMatchIn};
ghost use Rattle.order_search.specs.Searches.{HasGone};
ghost use Rattle.query_model.specs.Answers.{IsAnswer, IsMatch};
ghost use Rattle.query_model.specs.Fitting.{IsQuery};
ghost use Rattle.refutation_log.specs.Counted.{counted_steps};
ghost use Rattle.spec_model.specs.Consistent.{IsConsistent};
ghost use Rattle.certain_answers.specs.Deciding.{EachMatch, IsMatchAt};

use crate::matches::{MatchList, bring};
use crate::writable::is_writable;
use answer_laws::instances_exist;
use currency_base::{EntId, NoMemory, Tuple, laws_of_tuple_order};
use current_tuples::current;
use order_search::Search;
use query_model::{Match, Query};
use solver_guides::Guides;
use spec_model::{Completion, Specification};
use std::alloc::Global;
use std::cmp::Ordering;
use ucq_answers::IndexedInstance;

// The most matches of a tuple that one model brings in: each is a clause of the log. Where there are more, later models violate
// the others.
const MOST_MATCHES: usize = 65_536;

/// How a tuple is an answer: by a match, and by others, among which that one may stand again.
#[derive(Drop)]
pub(crate) struct Matched {
    pub first: Match,
    pub others: MatchList,
}

/// How a tuple is an answer over a completion, if it is one.
pub(crate) fn matched_over(
    alloc: Global,
    spec: &Specification,
    query: &Query,
    tuple: &Tuple,
    completion: &Completion,
) -> Result<Option<Matched>, NoMemory>
    requires query { IsQuery query.now }
    requires consistent { IsConsistent spec.now completion.now }
    ensures some { IfOk result (λ found. IfSome found
        (EachMatch (IsMatchIn spec.now.relations completion.now query.now tuple.now))) }
    ensures none { IfOk result (λ found. IfNone found (IsAnswerIn spec.now.relations query.now tuple.now completion.now → ⊥)) }
{
    instances_exist();
    let instance = match current(alloc, spec, completion) {
        Ok(instance) => instance,
        Err(error) => return Err(error),
    };
    let indexed = match IndexedInstance::new(alloc, query, &instance) {
        Ok(indexed) => indexed,
        Err(error) => return Err(error),
    };
    matched_in(alloc, &indexed, tuple)
}

// How a tuple is an answer over an instance that is indexed, if it is one.
fn matched_in(
    alloc: Global,
    indexed: &IndexedInstance<'_>,
    tuple: &Tuple,
) -> Result<Option<Matched>, NoMemory>
    ensures some { IfOk result (λ found. IfSome found (EachMatch (IsMatch indexed.now.query indexed.now.instance tuple.now))) }
    ensures none { IfOk result (λ found. IfNone found (IsAnswer indexed.now.query indexed.now.instance tuple.now → ⊥)) }
{
    match indexed.match_of(alloc, tuple) {
        Ok(Some(first)) => match indexed.matches_of(alloc, tuple, MOST_MATCHES) {
            Ok(others) => Ok(Some(Matched { first, others })),
            Err(error) => Err(error),
        },
        Ok(None) => Ok(None),
        Err(error) => Err(error),
    }
}

/// Brings in the axioms of a tuple's other matches over a completion, where they can be written. No unit is taken.
pub(crate) fn bring_others(
    alloc: Global,
    completion: &Completion,
    matched: &Matched,
    place: u32,
    search: &mut Search<'_>,
    guides: &mut Guides,
) -> Result<(), NoMemory>
    requires { All (λ m. IsMatchAt search.old completion.now m place) matched.now.others }
    ensures gone { HasGone search.old search.new }
    ensures units { counted_steps search.new.log.steps ≡ counted_steps search.old.log.steps }
{
    for at in 0..matched.others.len() {
        let other = matched.others.get(at);
        if is_same(other, &matched.first) || !is_writable(other) {
            continue;
        }
        match bring(alloc, completion, other, place, search, guides) {
            Ok(()) => {}
            Err(error) => return Err(error),
        }
    }
    Ok(())
}

// Are two matches the same?
fn is_same(one: &Match, other: &Match) -> bool
    ensures { result ≡ true → one.now ≡ other.now }
{
    laws_of_tuple_order();
    if one.disjunct != other.disjunct {
        return false;
    }
    if !are_same(one.entities.as_slice(), other.entities.as_slice()) {
        return false;
    }
    match one.values.order(&other.values) {
        Ordering::Equal => true,
        Ordering::Less => false,
        Ordering::Greater => false,
    }
}

// Are two lists of entities the same?
fn are_same(ones: &[EntId], others: &[EntId]) -> bool
    ensures { result ≡ true → ones.now ≡ others.now }
{
    ones == others
}
