ghost use Rattle.std.specs.Prelude.{◌≡◌, ◌∷◌, [], OnOk, length, true};
ghost use Rattle.current_tuples.specs.Places.{IsPlaceOf};
ghost use Rattle.order_clauses.specs.Added.{IsAddedTo};
ghost use Rattle.order_literals.specs.Numbers.{is_wanted};
ghost use Rattle.order_literals.specs.Said.{Said, Says};
ghost use Rattle.order_literals.specs.Statements.{statements_of};
ghost use Rattle.refutation_log.specs.declared.statement.Statement.{Statement};
ghost use Rattle.match_clauses.specs.Claimed.{atom_said, atoms_said, is_asked, term_said, terms_said};
ghost use Rattle.match_clauses.specs.Clauses.{AreAtomsOf, AreTermsOf, IsAtomOf, IsSource, Puts};

use crate::source::{Source, not_current};
use currency_base::{AttrId, EntId, Lit, LitList, NoMemory, RelId};
use query_model::{Atom, Term};

/// Puts what atoms say of entities after the literals: for each place at which a value is asked for, that the current value
/// is not.
pub(crate) fn put_atoms(
    source: Source<'_>,
    lits: &mut LitList,
    atoms: &[Atom],
    entities: &[EntId],
) -> Result<(), NoMemory>
    requires source { IsSource source.spec.now source.numbering.now source.wanted.now source.completion.now }
    requires atoms { AreAtomsOf source.spec.now source.wanted.now atoms.now entities.now }
    ensures { OnOk result (Puts (statements_of source.entry.numbering.now)
        (atoms_said source.entry.spec.now.relations source.entry.completion.now atoms.now entities.now)
        lits.old lits.new) }
{
    for place in 0..atoms.len() {
        match put_atom(source, lits, &atoms[place], entities[place]) {
            Ok(()) => {}
            Err(error) => return Err(error),
        }
    }
    Ok(())
}

// What an atom says of an entity.
fn put_atom(source: Source<'_>, lits: &mut LitList, atom: &Atom, ent: EntId) -> Result<(), NoMemory>
    requires source { IsSource source.spec.now source.numbering.now source.wanted.now source.completion.now }
    requires atom { IsAtomOf source.spec.now source.wanted.now atom.now ent }
    ensures { OnOk result (Puts (statements_of source.entry.numbering.now)
        (atom_said source.entry.spec.now.relations source.entry.completion.now atom.now ent)
        lits.old lits.new) }
{
    match atom.terms.as_slice() {
        [] => Ok(()),
        [_, terms @ ..] => put_terms(source, lits, atom.relation, ent, terms),
    }
}

// What terms say of the attributes of an entity.
fn put_terms(
    source: Source<'_>,
    lits: &mut LitList,
    rel: RelId,
    ent: EntId,
    terms: &[Term],
) -> Result<(), NoMemory>
    requires source { IsSource source.spec.now source.numbering.now source.wanted.now source.completion.now }
    requires terms { AreTermsOf source.spec.now source.wanted.now rel ent (length terms.now) }
    ensures { OnOk result (Puts (statements_of source.entry.numbering.now)
        (terms_said source.entry.spec.now.relations source.entry.completion.now rel ent 0 terms.now)
        lits.old lits.new) }
{
    for place in 0..terms.len() {
        match put_term(source, lits, rel, ent, AttrId(place as u32), &terms[place]) {
            Ok(()) => {}
            Err(error) => return Err(error),
        }
    }
    Ok(())
}

// What a term says of an attribute, if it asks for a value.
fn put_term(
    source: Source<'_>,
    lits: &mut LitList,
    rel: RelId,
    ent: EntId,
    attr: AttrId,
    term: &Term,
) -> Result<(), NoMemory>
    requires source { IsSource source.spec.now source.numbering.now source.wanted.now source.completion.now }
    requires place { IsPlaceOf source.spec.now.relations rel.0 attr.0 ent.0 }
    requires wanted { is_wanted source.wanted.now.currents rel.0 ≡ true }
    ensures { OnOk result (Puts (statements_of source.entry.numbering.now)
        (term_said source.entry.spec.now.relations source.entry.completion.now rel ent attr term.now)
        lits.old lits.new) }
{
    if !is_asked(term) {
        return Ok(());
    }
    put(lits, not_current(source, rel, attr, ent))
}

// Is a value asked for?
fn is_asked(term: &Term) -> bool
    ensures { result ≡ is_asked term.now }
{
    match term {
        Term::Var(_) => true,
        Term::Any => false,
        Term::Constant(_) => true,
    }
}

/// Puts a literal after the others, if it is not among them. They are few, so each is looked at.
pub(crate) fn put(lits: &mut LitList, lit: Lit) -> Result<(), NoMemory>
    ensures { OnOk result (IsAddedTo lits.old lit lits.new) }
{
    if lits.as_slice().contains(&lit) {
        return Ok(());
    }
    lits.push(lit)
}
