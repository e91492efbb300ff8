ghost use Rattle.std.specs.Prelude.{◌≡◌, ◌++◌, Some, IfOk, OnOk, length, map, option_map, slice_get};
ghost use Rattle.log_axioms.specs.Axioms.{claimed_clause, match_clause, not_last, placed_clause};
ghost use Rattle.log_axioms.specs.Entities.{AreIndexed};
ghost use Rattle.log_axioms.specs.Matches.{answer_place, atom_claims, match_claims};

use crate::answers::Answers;
use crate::entities::EntityIndex;
use crate::signed::begun;
use crate::{Signed, SignedList};
use currency_base::{EntId, NoMemory, RelId, Value};
use match_premises::{Premise, PremiseList, atom_premises, comparisons_hold, head_tuple};
use query_model::{Atom, Disjunct};
use spec_model::{Relation, Specification};
use std::alloc::Global;

/// The clause of a match of a disjunct, of one entity per atom and one value per variable.
pub(crate) fn match_clause(
    alloc: Global,
    spec: &Specification,
    index: &EntityIndex,
    answers: &Answers<'_>,
    disjunct: &Disjunct,
    entities: &[EntId],
    values: &[Value],
) -> Result<Option<SignedList>, NoMemory>
    requires { AreIndexed spec.now.relations index.now }
    ensures { IfOk result (λ clause. clause ≡ match_clause spec.now.relations answers.now entities.now values.now disjunct.now) }
{
    let are_counted = values.len() == disjunct.vars as usize
        && entities.len() == disjunct.atoms.len();
    if !(are_counted && comparisons_hold(values, disjunct.tests.as_slice())) {
        return Ok(None);
    }
    let Some(place) = answer_place(alloc, answers, values, disjunct.head.as_slice())? else {
        return Ok(None);
    };
    let atoms = disjunct.atoms.as_slice();
    placed_clause(alloc, spec, index, place, values, atoms, entities)
}

// The clause of a match whose tuple stands at a place.
fn placed_clause(
    alloc: Global,
    spec: &Specification,
    index: &EntityIndex,
    place: u32,
    values: &[Value],
    atoms: &[Atom],
    entities: &[EntId],
) -> Result<Option<SignedList>, NoMemory>
    requires index { AreIndexed spec.now.relations index.now }
    requires per_atom { length entities.now ≡ length atoms.now }
    ensures { IfOk result (λ clause. clause ≡ placed_clause spec.now.relations place entities.now values.now atoms.now) }
{
    match match_claims(alloc, spec, index, values, atoms, entities)? {
        Some(premises) => claimed_clause(alloc, place, premises.as_slice()),
        None => Ok(None),
    }
}

// The place of the tuple that the head's variables have as their values. One past the numbers of 32 bits
// counts as want of memory.
fn answer_place(
    alloc: Global,
    answers: &Answers<'_>,
    values: &[Value],
    head: &[u32],
) -> Result<Option<u32>, NoMemory>
    ensures { IfOk result (λ place. place ≡ answer_place answers.now values.now head.now) }
{
    let Some(tuple) = head_tuple(alloc, values, head)? else {
        return Ok(None);
    };
    match answers.first_place(&tuple) {
        Some(place) => {
            if place > u32::MAX as usize {
                return Err(NoMemory);
            }
            Ok(Some(place as u32))
        }
        None => Ok(None),
    }
}

// What atoms claim, each of its entity.
fn match_claims(
    alloc: Global,
    spec: &Specification,
    index: &EntityIndex,
    values: &[Value],
    atoms: &[Atom],
    entities: &[EntId],
) -> Result<Option<PremiseList>, NoMemory>
    requires index { AreIndexed spec.now.relations index.now }
    requires per_atom { length entities.now ≡ length atoms.now }
    ensures { IfOk result (λ found. found ≡ match_claims spec.now.relations values.now atoms.now entities.now) }
{
    let mut premises = PremiseList::new(alloc);
    for place in 0..atoms.len() {
        match atom_claims(alloc, spec, index, values, &atoms[place], entities[place]) {
            Ok(Some(more)) => match add_premises(&mut premises, more.as_slice()) {
                Ok(()) => {}
                Err(error) => return Err(error),
            },
            Ok(None) => return Ok(None),
            Err(error) => return Err(error),
        }
    }
    Ok(Some(premises))
}

// What an atom claims of an entity of its relation.
fn atom_claims(
    alloc: Global,
    spec: &Specification,
    index: &EntityIndex,
    values: &[Value],
    atom: &Atom,
    ent: EntId,
) -> Result<Option<PremiseList>, NoMemory>
    requires { AreIndexed spec.now.relations index.now }
    ensures { IfOk result (λ found. found ≡ atom_claims spec.now.relations values.now atom.now ent) }
{
    match relation_at(spec.relations(), atom.relation) {
        Some(relation) => {
            let members = index.get(atom.relation.0 as usize);
            atom_premises(alloc, relation, members, atom, ent, values)
        }
        None => Ok(None),
    }
}

// A relation, if it is there.
fn relation_at(relations: &[Relation], rel: RelId) -> Option<&Relation>
    ensures { option_map (λ r. r.now) result ≡ slice_get relations.now rel.0 }
{
    relations.get(rel.0 as usize)
}

// Puts premises after others.
fn add_premises(premises: &mut PremiseList, more: &[Premise]) -> Result<(), NoMemory>
    ensures { OnOk result (premises.new ≡ premises.old ++ more.now) }
{
    for premise in more {
        premises.push(*premise)?;
    }
    Ok(())
}

// That the tuple at a place is an answer, or one of the premises does not hold.
fn claimed_clause(
    alloc: Global,
    place: u32,
    premises: &[Premise],
) -> Result<Option<SignedList>, NoMemory>
    ensures { IfOk result (λ clause. clause ≡ claimed_clause (Some place) (Some premises.now)) }
{
    let mut clause = begun(alloc, Signed::answer(place))?;
    add_denied(&mut clause, premises)?;
    Ok(Some(clause))
}

// Puts the negation of each premise into the clause.
fn add_denied(clause: &mut SignedList, premises: &[Premise]) -> Result<(), NoMemory>
    ensures { OnOk result (clause.new ≡ clause.old ++ map (λ p. not_last p.rel p.attr p.row) premises.now) }
{
    for premise in premises {
        clause.push(Signed::not_last(premise.rel, premise.attr, premise.row))?;
    }
    Ok(())
}
