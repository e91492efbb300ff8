ghost use Rattle.std.specs.Prelude.{◌≡◌, ◌∷◌, ◌++◌, ◌<◌, [], Some, IfOk, OnOk};
ghost use Rattle.posed_facts.specs.Facts.{IsPlaced};
ghost use Rattle.posed_facts.specs.Questions.{any_places, claim_atom, claim_attrs, claim_name, name_term, term_places};

use crate::read::{attrs_of, name_of};
use currency_base::{Name, NoMemory, Value};
use match_premises::Premise;
use query_model::{Atom, AtomList, Term, TermList};
use spec_model::Specification;
use std::alloc::Global;

/// The atom that a claim's entity has this term at the attribute's place.
pub(crate) fn claim_atoms(
    alloc: Global,
    spec: &Specification,
    claim: Premise,
    term: Term,
) -> Result<AtomList, NoMemory>
    requires { IsPlaced spec.now.relations claim }
    ensures { IfOk result (λ list. list ≡ claim_atom spec.now.relations claim term ∷ []) }
{
    let terms = claim_terms(alloc, spec, claim, term)?;
    let mut atoms = AtomList::new(alloc);
    atoms.push(Atom {
        relation: claim.rel,
        terms,
    })?;
    Ok(atoms)
}

/// The terms of that atom: the entity's name, and then one place per attribute.
fn claim_terms(
    alloc: Global,
    spec: &Specification,
    claim: Premise,
    term: Term,
) -> Result<TermList, NoMemory>
    requires { IsPlaced spec.now.relations claim }
    ensures { IfOk result (λ terms. terms ≡
        name_term (claim_name spec.now.relations claim) ∷ term_places (claim_attrs spec.now.relations claim) claim.attr.0 term) }
{
    let name = name_of(spec, claim);
    let attrs = attrs_of(spec, claim);
    placed_terms(alloc, name, attrs, claim.attr.0 as usize, term)
}

/// A name, and then this term at one of so many places.
fn placed_terms(
    alloc: Global,
    name: &Name,
    attrs: usize,
    attr: usize,
    term: Term,
) -> Result<TermList, NoMemory>
    requires { attr < attrs }
    ensures { IfOk result (λ terms. terms ≡ name_term (Some name.now) ∷ term_places attrs attr term) }
{
    let mut terms = name_place(alloc, name)?;
    put_any(&mut terms, attr)?;
    terms.push(term)?;
    put_any(&mut terms, attrs - attr - 1)?;
    Ok(terms)
}

/// The place of the entity's name.
fn name_place(alloc: Global, name: &Name) -> Result<TermList, NoMemory>
    ensures { IfOk result (λ terms. terms ≡ name_term (Some name.now) ∷ []) }
{
    let mut terms = TermList::new(alloc);
    terms.push(Term::Constant(Value::Text(name.duplicate(alloc)?)))?;
    Ok(terms)
}

/// Puts so many places at the end, at which anything may stand.
fn put_any(terms: &mut TermList, places: usize) -> Result<(), NoMemory>
    ensures { OnOk result (terms.new ≡ terms.old ++ any_places places) }
{
    for _ in 0..places {
        terms.push(Term::Any)?;
    }
    Ok(())
}
