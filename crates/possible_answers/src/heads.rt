//! The heads of the matches that are possible.

ghost use Rattle.std.specs.Prelude.{◌≡◌, ◌++◌, IfOk, OnOk, length};
ghost use Rattle.possible_answers.specs.Heads.{head_if, head_of, heads_from, match_head};

use currency_base::{NoMemory, Tuple};
use decided_facts::Shown;
use match_premises::head_tuple;
use possible_values::Candidate;
use query_model::{Match, Query};
use std::alloc::Global;

/// The heads of the matches that are possible, in the order of the candidates.
pub(crate) fn heads(
    alloc: Global,
    query: &Query,
    candidates: &[Candidate],
    shown: &[Shown],
) -> Result<Vec<Tuple>, NoMemory>
    requires { length shown.now ≡ length candidates.now }
    ensures { IfOk result (λ tuples. tuples.items ≡ heads_from query.now candidates.now shown.now) }
{
    let mut tuples = Vec::new(alloc);
    for place in 0..candidates.len() {
        add_head(alloc, query, &candidates[place], shown[place], &mut tuples)?;
    }
    Ok(tuples)
}

/// Adds the head of a candidate that is a match, if it is possible.
fn add_head(
    alloc: Global,
    query: &Query,
    one: &Candidate,
    shown: Shown,
    into: &mut Vec<Tuple>,
) -> Result<(), NoMemory>
    ensures { OnOk result (into.new.items ≡ into.old.items ++ head_if query.now one.now shown) }
{
    match shown {
        Shown::FailsIn(_) => add_match(alloc, query, one, into),
        Shown::Holds => Ok(()),
    }
}

/// The same of one that is possible.
fn add_match(
    alloc: Global,
    query: &Query,
    one: &Candidate,
    into: &mut Vec<Tuple>,
) -> Result<(), NoMemory>
    ensures { OnOk result (into.new.items ≡ into.old.items ++ match_head query.now one.now) }
{
    if let Candidate::Match(found) = one {
        if let Some(tuple) = head_of(alloc, query, found)? {
            into.push(tuple)?;
        }
    }
    Ok(())
}

/// The values of the head's variables, if the match is one of the query.
fn head_of(alloc: Global, query: &Query, found: &Match) -> Result<Option<Tuple>, NoMemory>
    ensures { IfOk result (λ tuple. tuple ≡ head_of query.now found.now) }
{
    match query.disjuncts.as_slice().get(found.disjunct as usize) {
        Some(disjunct) => head_tuple(alloc, found.values.as_slice(), disjunct.head.as_slice()),
        None => Ok(None),
    }
}
