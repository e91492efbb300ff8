ghost use Rattle.std.specs.Prelude.{◌≡◌, All, IfOk, Some, map, option_map};
ghost use Rattle.match_candidates.specs.Places.{has_in};
ghost use Rattle.match_candidates.specs.Tables.{AreFor};
ghost use Rattle.match_candidates.specs.Ways.{AreChoices};
ghost use Rattle.ucq_answers.specs.Partly.{asked_at, asked_by};

use crate::binding::Binding;
use crate::place_index::{Entry, PlaceIndex, entries_of};
use crate::relation_table::RelationTable;
use currency_base::{EntId, NoMemory, Value};
use query_model::{Atom, Term};
use std::alloc::Global;
use std::marker::Model;

/// The table of a relation, with indexes by the values at some places. Contracts see the relation.
#[derive(Drop)]
pub(crate) struct IndexedTable<'a> {
    table: &'a RelationTable<'a>,
    // all entities
    all: Vec<Entry<'a>>,
    by_place: Vec<PlaceIndex<'a>>,
}

impl<'a> Model for IndexedTable<'a> {
    ghost use Rattle.match_candidates.specs.Tables.{IsIndexed};
    ghost use Rattle.spec_model.specs.declared.relation.Relation.{Relation};

    ghost Value = { Relation };

    ghost view = { λ t. t.table.now };

    ghost invariant = { λ t. IsIndexed t.table.now t.all.items t.by_place.items };
}

impl<'a> IndexedTable<'a> {
    /// The table with indexes by the values at these places.
    pub(crate) fn new(
        alloc: Global,
        table: &'a RelationTable<'a>,
        places: &[usize],
    ) -> Result<IndexedTable<'a>, NoMemory>
        ensures { IfOk result (λ indexed. indexed ≡ table.now) }
    {
        let all = entries_of(alloc, table, 0)?;
        let by_place = indexes_of(alloc, table, places)?;
        Ok(IndexedTable {
            table,
            all,
            by_place,
        })
    }

    /// Has an entity a value at a place?
    pub(crate) fn has(&self, ent: EntId, place: usize, value: &Value) -> bool
        ensures { result ≡ has_in self.now ent place value.now }
    {
        self.table.has(ent, place, value)
    }

    /// The values that an entity has at a place.
    pub(crate) fn choices(
        &self,
        alloc: Global,
        ent: EntId,
        place: usize,
    ) -> Result<Vec<&'a Value>, NoMemory>
        ensures { IfOk result (λ list. AreChoices (Some self.now) ent place (map (λ v. v.now) list.items)) }
    {
        self.table.choices(alloc, ent, place)
    }

    /// Entities among which all are that an atom can fit: those that have one of the values that it asks for, if one is known,
    /// and else all.
    pub(crate) fn candidates(&self, atom: &Atom, values: &Binding) -> &[Entry<'a>]
        ensures { AreFor self.now atom.now values.now result.now }
    {
        let mut best = self.all.as_slice();
        for index in &self.by_place {
            best = shorter(best, index, atom, values);
        }
        best
    }
}

// The entities that an index finds, if it is asked and they are fewer.
fn shorter<'b, 'a>(
    best: &'b [Entry<'a>],
    index: &'b PlaceIndex<'a>,
    atom: &Atom,
    values: &Binding,
) -> &'b [Entry<'a>]
    requires { AreFor index.now.relation atom.now values.now best.now }
    ensures { AreFor index.now.relation atom.now values.now result.now }
{
    match asked_at(values, atom.terms.as_slice(), index.place()) {
        Some(value) => {
            let found = index.alike(value);
            if found.len() < best.len() {
                found
            } else {
                best
            }
        }
        None => best,
    }
}

// The value that terms ask for at a place, if it is known.
fn asked_at<'b>(values: &Binding<'b>, terms: &'b [Term], place: usize) -> Option<&'b Value>
    ensures { option_map (λ v. v.now) result ≡ asked_at values.now terms.now place }
{
    match terms.get(place) {
        Some(term) => asked_by(values, term),
        None => None,
    }
}

// The value that a term asks for, if it is known.
fn asked_by<'b>(values: &Binding<'b>, term: &'b Term) -> Option<&'b Value>
    ensures { option_map (λ v. v.now) result ≡ asked_by values.now term.now }
{
    match term {
        Term::Var(var) => values.value(*var),
        Term::Any => None,
        Term::Constant(constant) => Some(constant),
    }
}

// An index for each of these places.
fn indexes_of<'a>(
    alloc: Global,
    table: &'a RelationTable<'a>,
    places: &[usize],
) -> Result<Vec<PlaceIndex<'a>>, NoMemory>
    ensures { IfOk result (λ indexes. All (λ index. index.relation ≡ table.now) indexes.items) }
{
    let mut indexes = Vec::new(alloc);
    for place in places {
        indexes.push(PlaceIndex::new(alloc, table, *place)?)?;
    }
    Ok(indexes)
}
