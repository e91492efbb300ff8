use currency_base::{NoMemory, RelId};
use query_model::{Atom, Disjunct, Query, Term};
use std::alloc::Global;

/// A place of a relation at which values are looked up.
#[derive(Clone, Copy, PartialEq, Eq, PartialOrd, Ord)]
pub(crate) struct LookedUp {
    relation: RelId,
    place: usize,
}

/// The places at which a search of a query looks values up, atom after atom: those whose value is known there. Which these are
/// matters to the time that it takes alone.
pub(crate) fn lookups_of(alloc: Global, query: &Query) -> Result<Vec<LookedUp>, NoMemory> {
    let mut looked_up = Vec::new(alloc);
    for disjunct in query.disjuncts.as_slice() {
        look_up(alloc, disjunct, &mut looked_up)?;
    }
    looked_up.sort_unstable();
    looked_up.dedup();
    Ok(looked_up)
}

/// The places of a relation among these.
pub(crate) fn places_of(
    alloc: Global,
    looked_up: &[LookedUp],
    relation: usize,
) -> Result<Vec<usize>, NoMemory> {
    let mut places = Vec::new(alloc);
    for one in looked_up {
        if one.relation.0 as usize == relation {
            places.push(one.place)?;
        }
    }
    Ok(places)
}

// Adds the places of a disjunct.
fn look_up(
    alloc: Global,
    disjunct: &Disjunct,
    looked_up: &mut Vec<LookedUp>,
) -> Result<(), NoMemory> {
    let mut known = vec![in alloc; false; disjunct.vars as usize]?;
    for atom in disjunct.atoms.as_slice() {
        look_up_in(atom, &mut known, looked_up)?;
    }
    Ok(())
}

// Adds the places of an atom, and then notes its variables.
fn look_up_in(
    atom: &Atom,
    known: &mut Vec<bool>,
    looked_up: &mut Vec<LookedUp>,
) -> Result<(), NoMemory> {
    for (place, term) in atom.terms.as_slice().iter().enumerate() {
        if asks(term, known) {
            looked_up.push(LookedUp {
                relation: atom.relation,
                place,
            })?;
        }
    }
    for term in atom.terms.as_slice() {
        if let Term::Var(var) = term {
            note(known, *var);
        }
    }
    Ok(())
}

// Asks a term for a value that is known?
fn asks(term: &Term, known: &[bool]) -> bool {
    match term {
        Term::Var(var) => known.get(*var as usize).copied().unwrap_or(false),
        Term::Any => false,
        Term::Constant(_) => true,
    }
}

// Notes that a variable has a value.
fn note(known: &mut Vec<bool>, var: u32) {
    if (var as usize) < known.len() {
        known[var as usize] = true;
    }
}
