// The kinds that places give variables, noted disjunct by disjunct, and the names of a head.

ghost use Rattle.std.specs.Prelude.{◌≡◌, ℕ, List, IfOk, OnOk, is_some};
ghost use Rattle.std.specs.List.{list_any};
ghost use Rattle.std.specs.Str.{bytes_eq};
ghost use Rattle.spec_names.specs.Names.{place_of};
ghost use Rattle.query_bind.specs.Queried.{first_at, first_some, kind_by, kind_in, kind_in_part, kind_in_places, relation_of};
ghost use Rattle.query_bind.specs.Steps.{kind_for, Notes};

use crate::kinds::place_kind;
use crate::noted::NotedKinds;
use crate::relations::relation_of;
use crate::variables::add_name;
use currency_base::NoMemory;
use name_index::NameIndex;
use query_syntax::{AtomTree, DisjunctTree, PartTree, PlaceTree};
use spec_model::Relation;
use std::alloc::Global;
use text_grammar::Named;

/// The kinds that a disjunct gives its variables.
pub fn kinds_in(
    alloc: Global,
    names: &NameIndex,
    relations: &[Relation],
    disjunct: &DisjunctTree,
) -> Result<NotedKinds, NoMemory>
    ensures { IfOk result (λ noted. (name : List ℕ) → kind_for noted name ≡ kind_in names.now relations.now disjunct.now name) }
{
    let mut noted = NotedKinds::new(alloc);
    note_disjunct(alloc, &mut noted, names, relations, disjunct)?;
    Ok(noted)
}

/// Notes the kinds that a disjunct gives its variables.
pub fn note_disjunct(
    alloc: Global,
    noted: &mut NotedKinds,
    names: &NameIndex,
    relations: &[Relation],
    disjunct: &DisjunctTree,
) -> Result<(), NoMemory>
    ensures { OnOk result (Notes noted.old noted.new (kind_in names.now relations.now disjunct.now)) }
{
    note_atom(alloc, noted, names, relations, &disjunct.first)?;
    note_parts(alloc, noted, names, relations, disjunct.parts.as_slice())?;
    Ok(())
}

/// Notes the kinds that parts give variables.
fn note_parts(
    alloc: Global,
    noted: &mut NotedKinds,
    names: &NameIndex,
    relations: &[Relation],
    parts: &[PartTree],
) -> Result<(), NoMemory>
    ensures { OnOk result (Notes noted.old noted.new (λ name. first_some (kind_in_part names.now relations.now name) parts.now)) }
{
    for part in parts {
        note_part(alloc, noted, names, relations, part)?;
    }
    Ok(())
}

/// Notes the kinds that a part gives variables.
fn note_part(
    alloc: Global,
    noted: &mut NotedKinds,
    names: &NameIndex,
    relations: &[Relation],
    part: &PartTree,
) -> Result<(), NoMemory>
    ensures { OnOk result (Notes noted.old noted.new (λ name. kind_in_part names.now relations.now name part.now)) }
{
    match part {
        PartTree::Atom(atom) => note_atom(alloc, noted, names, relations, atom),
        PartTree::Test(_) => Ok(()),
    }
}

/// Notes the kinds that an atom gives variables.
fn note_atom(
    alloc: Global,
    noted: &mut NotedKinds,
    names: &NameIndex,
    relations: &[Relation],
    atom: &AtomTree,
) -> Result<(), NoMemory>
    ensures { OnOk result (Notes noted.old noted.new
        (λ name. kind_in_places (relation_of names.now relations.now atom.now.relation) name atom.now.places)) }
{
    match relation_of(names, relations, &atom.relation) {
        Some(relation) => note_places(alloc, noted, relation, atom.places.as_slice()),
        None => Ok(()),
    }
}

/// Notes the kinds that places of an atom give variables.
fn note_places(
    alloc: Global,
    noted: &mut NotedKinds,
    relation: &Relation,
    places: &[PlaceTree],
) -> Result<(), NoMemory>
    ensures { OnOk result (Notes noted.old noted.new (λ name. first_at (kind_by relation.now name) 0 places.now)) }
{
    for (at, place) in places.iter().enumerate() {
        note_place(alloc, noted, relation, at, place)?;
    }
    Ok(())
}

/// Notes the kind that a place gives a variable.
fn note_place(
    alloc: Global,
    noted: &mut NotedKinds,
    relation: &Relation,
    at: usize,
    place: &PlaceTree,
) -> Result<(), NoMemory>
    ensures { OnOk result (Notes noted.old noted.new (λ name. kind_by relation.now name at place.now)) }
{
    match place {
        PlaceTree::Var(named) => match place_kind(relation, at) {
            Some(kind) => noted.note(alloc, &named.name, kind),
            None => Ok(()),
        },
        PlaceTree::Any { .. } => Ok(()),
        PlaceTree::Constant(_) => Ok(()),
    }
}

/// The names of a head.
pub fn head_names(alloc: Global, head: &[Named]) -> Result<NameIndex, NoMemory>
    ensures { IfOk result (λ names. (name : List ℕ) → is_some (place_of names name) ≡ list_any
        (λ h. bytes_eq name h.name) head.now) }
{
    let mut names = NameIndex::new(alloc);
    for named in head {
        add_name(alloc, &mut names, &named.name)?;
    }
    Ok(names)
}
