ghost use Rattle.std.specs.Prelude.{◌≡◌, ◌≤◌, ℕ, nat_lt, nat_le, List, Some, All, Contains, IfOk, length, slice_get, slice_range, option_map};
ghost use Rattle.std.specs.List.Sorted.{IsSortedBy};
ghost use Rattle.std.specs.Option.{option_cmp};
ghost use Rattle.currency_base.specs.Values.{value_cmp};
ghost use Rattle.currency_base.specs.declared.value.Value.{Value};
ghost use Rattle.ucq_answers.specs.Lookups.{AreAlike, EndsAt, IsByValue, IsReach, KeepsAmong, ListsAll, StartsAt, is_lower, key_of, rank_to};

use currency_base::{Cmp, EntId, NoMemory, Tuple, Value};
use std::alloc::Global;
use std::cmp::Ordering;
use std::marker::Model;

/// Tuples by their values at a place. Contracts see the tuples and the place.
#[derive(Drop)]
pub(crate) struct PlaceIndex<'a> {
    tuples: &'a [Tuple],
    place: usize,
    // the places of the tuples, those of lower values first
    by_value: Vec<EntId>,
}

impl<'a> Model for PlaceIndex<'a> {
    ghost use Rattle.ucq_answers.specs.Lookups.{Indexed, IsByValue};

    ghost Value = { Indexed };

    ghost view = { λ i. record { tuples = i.tuples.now; place = i.place } };

    ghost invariant = { λ i. IsByValue i.tuples.now i.place i.by_value.items };
}

impl<'a> PlaceIndex<'a> {
    /// The index of tuples by their values at a place; `all` are the places of all tuples.
    pub(crate) fn new(
        alloc: Global,
        tuples: &'a [Tuple],
        all: &[EntId],
        place: usize,
    ) -> Result<PlaceIndex<'a>, NoMemory>
        requires { ListsAll tuples.now all.now }
        ensures { IfOk result (λ index. index ≡ record { tuples = tuples.now; place = place }) }
    {
        let by_value = sorted_by_value(alloc, tuples, all, place)?;
        Ok(PlaceIndex {
            tuples,
            place,
            by_value,
        })
    }

    /// The place at which values are looked up.
    pub(crate) fn place(&self) -> usize
        ensures { result ≡ self.now.place }
    {
        self.place
    }

    /// The places of all tuples, those of lower values first.
    pub(crate) fn by_value(&self) -> &[EntId]
        ensures { IsByValue self.now.tuples self.now.place result.now }
    {
        &self.by_value
    }

    /// Of some places, those of lower values first, those whose values stand so to a value.
    pub(crate) fn among<'b>(&self, ents: &'b [EntId], cmp: Cmp, value: &Value) -> &'b [EntId]
        requires { IsSortedBy (is_lower self.now.tuples self.now.place) ents.now }
        ensures sorted { IsSortedBy (is_lower self.now.tuples self.now.place) result.now }
        ensures kept { KeepsAmong self.now.tuples self.now.place cmp value.now ents.now result.now }
    {
        let (start, end) = reach_of(self.tuples, self.place, ents, cmp, value);
        &ents[start..end]
    }

    /// The places of the tuples that have this value.
    pub(crate) fn alike(&self, value: &Value) -> &[EntId]
        ensures { AreAlike self.now.tuples self.now.place value.now result.now }
    {
        let (start, end) = span_of(self.tuples, self.place, &self.by_value, value);
        &self.by_value[start..end]
    }
}

// The tuples by their values at a place.
fn sorted_by_value(
    alloc: Global,
    tuples: &[Tuple],
    all: &[EntId],
    place: usize,
) -> Result<Vec<EntId>, NoMemory>
    requires { ListsAll tuples.now all.now }
    ensures { IfOk result (λ ents. IsByValue tuples.now place ents.items) }
{
    let mut ents = Vec::with_capacity(alloc, all.len())?;
    ents.extend_from_slice(all)?;
    ents.sort_by(|a, b| order_of(tuples, place, *a, *b))?;
    Ok(ents)
}

// Where among tuples that stand by their values those of this value start and end.
fn span_of(tuples: &[Tuple], place: usize, by_value: &[EntId], value: &Value) -> (usize, usize)
    requires { IsByValue tuples.now place by_value.now }
    ensures order { result.0 ≤ result.1 }
    ensures within { result.1 ≤ length by_value.now }
    ensures alike { AreAlike tuples.now place value.now (slice_range by_value.now result.0 result.1) }
{
    let start = start_of(tuples, place, by_value, value);
    (start, end_of(tuples, place, by_value, value))
}

// Where among tuples that stand by their values those stand whose values stand so to a value.
fn reach_of(
    tuples: &[Tuple],
    place: usize,
    ents: &[EntId],
    cmp: Cmp,
    value: &Value,
) -> (usize, usize)
    requires { IsSortedBy (is_lower tuples.now place) ents.now }
    ensures order { result.0 ≤ result.1 }
    ensures within { result.1 ≤ length ents.now }
    ensures reach { IsReach tuples.now place cmp value.now ents.now result.0 result.1 }
{
    match cmp {
        Cmp::Lt => (0, start_of(tuples, place, ents, value)),
        Cmp::Le => (0, end_of(tuples, place, ents, value)),
        Cmp::Gt => (end_of(tuples, place, ents, value), ents.len()),
        Cmp::Ge => (start_of(tuples, place, ents, value), ents.len()),
        Cmp::Eq => (0, ents.len()),
        Cmp::Ne => (0, ents.len()),
    }
}

// How many tuples have a value below this one.
fn start_of(tuples: &[Tuple], place: usize, by_value: &[EntId], value: &Value) -> usize
    requires { IsSortedBy (is_lower tuples.now place) by_value.now }
    ensures bound { result ≤ length by_value.now }
    ensures at { StartsAt tuples.now place value.now by_value.now result }
{
    by_value.partition_point(|ent| is_below(tuples, place, *ent, value))
}

// How many tuples have a value up to this one.
fn end_of(tuples: &[Tuple], place: usize, by_value: &[EntId], value: &Value) -> usize
    requires { IsSortedBy (is_lower tuples.now place) by_value.now }
    ensures bound { result ≤ length by_value.now }
    ensures at { EndsAt tuples.now place value.now by_value.now result }
{
    by_value.partition_point(|ent| is_up_to(tuples, place, *ent, value))
}

// A tuple's value at a place, if it has one.
fn value_of(tuples: &[Tuple], place: usize, ent: EntId) -> Option<&Value>
    ensures { option_map (λ v. v.now) result ≡ key_of tuples.now place ent }
{
    let tuple = tuples.get(ent.0 as usize)?;
    tuple.as_slice().get(place)
}

// How the values of two tuples stand.
fn order_of(tuples: &[Tuple], place: usize, a: EntId, b: EntId) -> Ordering
    ensures { result ≡ option_cmp value_cmp (key_of tuples.now place a) (key_of tuples.now place b) }
{
    match (value_of(tuples, place, a), value_of(tuples, place, b)) {
        (Some(a), Some(b)) => a.cmp(b),
        (Some(_), None) => Ordering::Greater,
        (None, Some(_)) => Ordering::Less,
        (None, None) => Ordering::Equal,
    }
}

// How the value of a tuple stands to another. Where it has none it stands below.
fn order_to(tuples: &[Tuple], place: usize, ent: EntId, value: &Value) -> Ordering
    ensures { result ≡ option_cmp value_cmp (key_of tuples.now place ent) (Some value.now) }
{
    match value_of(tuples, place, ent) {
        Some(own) => own.cmp(value),
        None => Ordering::Less,
    }
}

// Is the value of a tuple below another?
fn is_below(tuples: &[Tuple], place: usize, ent: EntId, value: &Value) -> bool
    ensures { result ≡ nat_lt (rank_to tuples.now place value.now ent) 1 }
{
    match order_to(tuples, place, ent, value) {
        Ordering::Less => true,
        Ordering::Equal => false,
        Ordering::Greater => false,
    }
}

// Is it below or equal?
fn is_up_to(tuples: &[Tuple], place: usize, ent: EntId, value: &Value) -> bool
    ensures { result ≡ nat_le (rank_to tuples.now place value.now ent) 1 }
{
    match order_to(tuples, place, ent, value) {
        Ordering::Less => true,
        Ordering::Equal => true,
        Ordering::Greater => false,
    }
}
