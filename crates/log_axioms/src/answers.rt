ghost use Rattle.std.specs.Prelude.{◌≡◌, true, option_map, slice_get};
ghost use Rattle.query_model.specs.Answers.{AreAscending};
ghost use Rattle.log_axioms.specs.Matches.{first_place};

use currency_base::{Tuple, laws_of_tuple_order};
use std::marker::Model;

/// The tuples that statements name. Contracts see them as a list.
#[derive(Drop)]
pub(crate) struct Answers<'a> {
    tuples: &'a [Tuple],
    // whether each is known to be below those after it
    ascending: bool,
}

impl<'a> Model for Answers<'a> {
    ghost use Rattle.std.specs.Prelude.{◌≡◌, List, true};
    ghost use Rattle.currency_base.specs.declared.value.Value.{Value as Datum};
    ghost use Rattle.query_model.specs.Answers.{AreAscending};

    ghost Value = { List (List Datum) };

    ghost view = { λ a. a.tuples.now };

    ghost invariant = { λ a. a.ascending ≡ true → AreAscending a.tuples.now };
}

impl<'a> Answers<'a> {
    /// These tuples. Goes once over them.
    pub(crate) fn new(tuples: &'a [Tuple]) -> Answers<'a>
        ensures { result ≡ tuples.now }
    {
        let ascending = are_ascending(tuples);
        Answers { tuples, ascending }
    }

    /// The first place of a tuple, if it is among them. Where they ascend, it is found by halving.
    pub(crate) fn first_place(&self, tuple: &Tuple) -> Option<usize>
        ensures { result ≡ first_place self.now tuple.now }
    {
        if self.ascending {
            halved(self.tuples, tuple)
        } else {
            scanned(self.tuples, tuple)
        }
    }
}

// Is each tuple below the next?
fn are_ascending(tuples: &[Tuple]) -> bool
    ensures { result ≡ true → AreAscending tuples.now }
{
    laws_of_tuple_order();
    for place in 1..tuples.len() {
        if !tuples[place - 1].order(&tuples[place]).is_lt() {
            return false;
        }
    }
    true
}

// The first place of a tuple among ascending ones.
fn halved(tuples: &[Tuple], tuple: &Tuple) -> Option<usize>
    requires { AreAscending tuples.now }
    ensures { result ≡ first_place tuples.now tuple.now }
{
    laws_of_tuple_order();
    let place = tuples.partition_point(|other| other.order(tuple).is_lt());
    match tuple_at(tuples, place) {
        Some(found) => {
            if found.order(tuple).is_eq() {
                Some(place)
            } else {
                None
            }
        }
        None => None,
    }
}

// The tuple at a place, if there is one.
fn tuple_at(tuples: &[Tuple], place: usize) -> Option<&Tuple>
    ensures { option_map (λ t. t.now) result ≡ slice_get tuples.now place }
{
    tuples.get(place)
}

// The first place of a tuple.
fn scanned(tuples: &[Tuple], tuple: &Tuple) -> Option<usize>
    ensures { result ≡ first_place tuples.now tuple.now }
{
    for place in 0..tuples.len() {
        if tuples[place].order(tuple).is_eq() {
            return Some(place);
        }
    }
    None
}
