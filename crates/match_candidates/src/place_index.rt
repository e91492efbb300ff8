ghost use Rattle.std.specs.Prelude.{◌≡◌, ◌≤◌, ◌++◌, nat_lt, nat_le, IfOk, OnOk, length, map, slice_range};
ghost use Rattle.currency_base.specs.Values.{value_cmp};
ghost use Rattle.match_candidates.specs.Entries.{AddsEntries, AreAlike, AreEntries, EndsAt, IsByValue, StartsAt, rank_to};

use crate::relation_table::RelationTable;
use currency_base::{EntId, NoMemory, Value};
use std::alloc::Global;
use std::cmp::Ordering;
use std::marker::Model;

/// An entity with a value that it has at a place.
#[derive(Clone, Copy)]
pub(crate) struct Entry<'a> {
    pub value: &'a Value,
    pub ent: EntId,
}

/// The entities of a relation by their values at a place. Contracts see the relation and the place.
#[derive(Drop)]
pub(crate) struct PlaceIndex<'a> {
    table: &'a RelationTable<'a>,
    place: usize,
    // those of lower values first
    entries: Vec<Entry<'a>>,
}

impl<'a> Model for PlaceIndex<'a> {
    ghost use Rattle.match_candidates.specs.Entries.{Indexed, IsByValue};

    ghost Value = { Indexed };

    ghost view = { λ i. record { relation = i.table.now; place = i.place } };

    ghost invariant = { λ i. IsByValue i.table.now i.place i.entries.items };
}

impl<'a> PlaceIndex<'a> {
    /// The index of a relation by the values at a place.
    pub(crate) fn new(
        alloc: Global,
        table: &'a RelationTable<'a>,
        place: usize,
    ) -> Result<PlaceIndex<'a>, NoMemory>
        ensures { IfOk result (λ index. index ≡ record { relation = table.now; place = place }) }
    {
        let entries = entries_of(alloc, table, place)?;
        let entries = sorted(table, place, entries)?;
        Ok(PlaceIndex {
            table,
            place,
            entries,
        })
    }

    /// The place at which values are looked up.
    pub(crate) fn place(&self) -> usize
        ensures { result ≡ self.now.place }
    {
        self.place
    }

    /// The entities that have a value at the place.
    pub(crate) fn alike(&self, value: &Value) -> &[Entry<'a>]
        ensures { AreAlike self.now.relation self.now.place value.now result.now }
    {
        let (start, end) = span_of(self.table, self.place, &self.entries, value);
        &self.entries[start..end]
    }
}

/// The entities of a relation, each with the values that it has at a place.
pub(crate) fn entries_of<'a>(
    alloc: Global,
    table: &'a RelationTable<'a>,
    place: usize,
) -> Result<Vec<Entry<'a>>, NoMemory>
    ensures { IfOk result (λ entries. AreEntries table.now place entries.items) }
{
    let mut entries = Vec::new(alloc);
    for ent in table.all() {
        add_entity(alloc, &mut entries, table, *ent, place)?;
    }
    Ok(entries)
}

// Puts the values of an entity after the others.
fn add_entity<'a>(
    alloc: Global,
    entries: &mut Vec<Entry<'a>>,
    table: &'a RelationTable<'a>,
    ent: EntId,
    place: usize,
) -> Result<(), NoMemory>
    ensures { OnOk result (AddsEntries table.now place ent entries.old.items entries.new.items) }
{
    let values = table.choices(alloc, ent, place)?;
    add_values(entries, ent, &values)?;
    Ok(())
}

// Puts values of an entity after the others.
fn add_values<'a>(
    entries: &mut Vec<Entry<'a>>,
    ent: EntId,
    values: &[&'a Value],
) -> Result<(), NoMemory>
    ensures { OnOk result (entries.new.items ≡ entries.old.items ++ map (λ v. record { value = v; ent = ent }) values.now) }
{
    for value in values {
        entries.push(Entry { value: *value, ent })?;
    }
    Ok(())
}

// The entities by their values.
fn sorted<'a>(
    table: &RelationTable,
    place: usize,
    entries: Vec<Entry<'a>>,
) -> Result<Vec<Entry<'a>>, NoMemory>
    requires { AreEntries table.now place entries.items }
    ensures { IfOk result (λ sorted. IsByValue table.now place sorted.items) }
{
    let mut entries = entries;
    entries.sort_by(|a, b| order_of(a, b))?;
    Ok(entries)
}

// How the values of two entities stand.
fn order_of(a: &Entry, b: &Entry) -> Ordering
    ensures { result ≡ value_cmp a.now.value.now b.now.value.now }
{
    a.value.cmp(b.value)
}

// Where among entities that stand by their values those of this value start and end.
fn span_of(table: &RelationTable, place: usize, entries: &[Entry], value: &Value) -> (usize, usize)
    requires { IsByValue table.now place entries.now }
    ensures order { result.0 ≤ result.1 }
    ensures within { result.1 ≤ length entries.now }
    ensures alike { AreAlike table.now place value.now (slice_range entries.now result.0 result.1) }
{
    let start = start_of(table, place, entries, value);
    (start, end_of(table, place, entries, value))
}

// How many entities have a value below this one.
fn start_of(table: &RelationTable, place: usize, entries: &[Entry], value: &Value) -> usize
    requires { IsByValue table.now place entries.now }
    ensures bound { result ≤ length entries.now }
    ensures at { StartsAt value.now entries.now result }
{
    entries.partition_point(|entry| is_below(entry, value))
}

// How many entities have a value up to this one.
fn end_of(table: &RelationTable, place: usize, entries: &[Entry], value: &Value) -> usize
    requires { IsByValue table.now place entries.now }
    ensures bound { result ≤ length entries.now }
    ensures at { EndsAt value.now entries.now result }
{
    entries.partition_point(|entry| is_up_to(entry, value))
}

// Is the value of an entity below another?
fn is_below(entry: &Entry, value: &Value) -> bool
    ensures { result ≡ nat_lt (rank_to value.now entry.now) 1 }
{
    match entry.value.cmp(value) {
        Ordering::Less => true,
        Ordering::Equal => false,
        Ordering::Greater => false,
    }
}

// Is it below or equal?
fn is_up_to(entry: &Entry, value: &Value) -> bool
    ensures { result ≡ nat_le (rank_to value.now entry.now) 1 }
{
    match entry.value.cmp(value) {
        Ordering::Less => true,
        Ordering::Equal => true,
        Ordering::Greater => false,
    }
}
