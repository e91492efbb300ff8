ghost use Rattle.std.specs.Prelude.{◌≡◌, ◌∷◌, [], length, slice_get, IfOk};
ghost use Rattle.currency_base.specs.declared.value.Value.TheVariants.{Text};
ghost use Rattle.query_model.specs.declared.query.Term.TheVariants as term;
ghost use Rattle.unit_questions.specs.Steps.{entity_question, value_term};
ghost use Rattle.unit_questions.specs.Units.{value_places, value_query, value_question};

use currency_base::{AttrId, EntId, Name, NoMemory, RelId, Value};
use query_model::{
    Atom, AtomList, Disjunct, DisjunctList, Query, Term, TermList, TestList, VarList,
};
use spec_model::{Question, Relation};
use std::alloc::Global;

/// Whether the entity has this value of the attribute.
pub(crate) fn value_question(
    alloc: Global,
    relations: &[Relation],
    rel: RelId,
    attr: AttrId,
    ent: EntId,
    value: &Value,
) -> Result<Question, NoMemory>
    ensures { IfOk result (λ one. one ≡ value_question (slice_get relations.now rel.0) rel attr ent value.now) }
{
    match relations.get(rel.0 as usize) {
        Some(relation) => entity_question(alloc, relation, rel, attr, ent, value),
        None => Ok(Question::Consistent),
    }
}

/// The same, of this relation.
fn entity_question(
    alloc: Global,
    relation: &Relation,
    rel: RelId,
    attr: AttrId,
    ent: EntId,
    value: &Value,
) -> Result<Question, NoMemory>
    ensures { IfOk result (λ one. one ≡
        entity_question rel (length relation.now.attrs) attr value.now (slice_get relation.now.entities ent.0)) }
{
    match relation.entities.as_slice().get(ent.0 as usize) {
        Some(name) => {
            let attrs = relation.attrs.len();
            Ok(Question::Answers(value_query(alloc, rel, name, attrs, attr, value)?))
        }
        None => Ok(Question::Consistent),
    }
}

/// Whether the relation has an entity of this name with this value of the attribute.
fn value_query(
    alloc: Global,
    rel: RelId,
    name: &Name,
    attrs: usize,
    attr: AttrId,
    value: &Value,
) -> Result<Query, NoMemory>
    ensures { IfOk result (λ query. query ≡ value_query rel name.now attrs attr value.now) }
{
    let atoms = value_atoms(alloc, rel, name, attrs, attr, value)?;
    Ok(Query {
        disjuncts: one_disjunct(alloc, atoms)?,
    })
}

/// The disjunct of these atoms, without a variable.
fn one_disjunct(alloc: Global, atoms: AtomList) -> Result<DisjunctList, NoMemory>
    ensures { IfOk result (λ list. list ≡ record { head = []; atoms = atoms; tests = []; vars = 0 } ∷ []) }
{
    let mut disjuncts = DisjunctList::new(alloc);
    disjuncts.push(Disjunct {
        head: VarList::new(alloc),
        atoms,
        tests: TestList::new(alloc),
        vars: 0,
    })?;
    Ok(disjuncts)
}

/// The atom that such an entity's tuple fits.
fn value_atoms(
    alloc: Global,
    rel: RelId,
    name: &Name,
    attrs: usize,
    attr: AttrId,
    value: &Value,
) -> Result<AtomList, NoMemory>
    ensures { IfOk result (λ list. list ≡
        record { relation = rel; terms = term.Constant (Text name.now) ∷ value_places attrs attr.0 value.now } ∷ []) }
{
    let terms = places(alloc, name, attrs, attr, value)?;
    let mut atoms = AtomList::new(alloc);
    atoms.push(Atom {
        relation: rel,
        terms,
    })?;
    Ok(atoms)
}

/// The entity's name, and then one place per attribute: the value at the attribute's.
fn places(
    alloc: Global,
    name: &Name,
    attrs: usize,
    attr: AttrId,
    value: &Value,
) -> Result<TermList, NoMemory>
    ensures { IfOk result (λ terms. terms ≡ term.Constant (Text name.now) ∷ value_places attrs attr.0 value.now) }
{
    let mut terms = name_place(alloc, name)?;
    for place in 0..attrs {
        terms.push(value_term(alloc, place, attr, value)?)?;
    }
    Ok(terms)
}

/// The place of the entity's name.
fn name_place(alloc: Global, name: &Name) -> Result<TermList, NoMemory>
    ensures { IfOk result (λ terms. terms ≡ term.Constant (Text name.now) ∷ []) }
{
    let mut terms = TermList::new(alloc);
    terms.push(Term::Constant(Value::Text(name.duplicate(alloc)?)))?;
    Ok(terms)
}

/// What stands at the place of an attribute.
fn value_term(alloc: Global, place: usize, attr: AttrId, value: &Value) -> Result<Term, NoMemory>
    ensures { IfOk result (λ one. one ≡ value_term place attr.0 value.now) }
{
    if place == attr.0 as usize {
        Ok(Term::Constant(value.duplicate(alloc)?))
    } else {
        Ok(Term::Any)
    }
}
