ghost use Rattle.std.specs.Prelude.{◌∷◌, IfOk};
ghost use Rattle.std.specs.List.{AllZip};
ghost use Rattle.ucq_answers.specs.Found.{AddsMatches, AllFitAt, IsMatchFrom, IsMatchWith};
ghost use Rattle.ucq_answers.specs.Kept.{atoms_of};

use crate::binding::Binding;
use crate::choices::{choice, choices_of};
use crate::comparisons::passes;
use crate::match_set::MatchSet;
use crate::prepared::SearchedAtom;
use crate::search::{Search, candidates, fit_atom, join_atom, next_step};
use currency_base::{EntId, EntList, NoMemory};
use query_model::{Atom, Match, Term};
use std::alloc::Global;

/// What is searched for the matches by a disjunct: what is searched for values, and the disjunct's atoms and number.
#[derive(Drop)]
pub(crate) struct MatchSearch<'a> {
    pub search: Search<'a>,
    pub atoms: &'a [Atom],
    pub number: u32,
}

/// Adds matches by all values that go on from some values, for which each atom of these steps holds and no comparison
/// fails. Says whether no further match is wanted.
#[cycle(collect_matches)]
pub(crate) fn collect_matches<'a>(
    alloc: Global,
    sought: &MatchSearch<'a>,
    steps: &'a [SearchedAtom<'a>],
    values: &Binding<'a>,
    found: &mut MatchSet,
) -> Result<bool, NoMemory>
    ensures { IfOk result (λ full. AddsMatches (IsMatchFrom sought.now.search.relations.now sought.now.search.conditions.now
        sought.now.atoms.now sought.now.number (atoms_of steps.now) values.now) found.old found.new) }
{
    if !passes(values, sought.search.conditions.tests()) {
        return Ok(false);
    }
    let Some((step, rest)) = next_step(steps) else {
        let full = add_matches(alloc, sought, values, found)?;
        return Ok(full);
    };
    for ent in starts(alloc, &sought.search, step.atom(), values)? {
        if matches_at(alloc, sought, step, rest, *ent, values, found)? {
            return Ok(true);
        }
    }
    Ok(false)
}

// Adds those whose values begin with the tuple at this place.
#[cycle(collect_matches)]
fn matches_at<'a>(
    alloc: Global,
    sought: &MatchSearch<'a>,
    step: &'a SearchedAtom<'a>,
    rest: &'a [SearchedAtom<'a>],
    ent: EntId,
    values: &Binding<'a>,
    found: &mut MatchSet,
) -> Result<bool, NoMemory>
    ensures { IfOk result (λ full. AddsMatches (IsMatchFrom sought.now.search.relations.now sought.now.search.conditions.now
        sought.now.atoms.now sought.now.number (atoms_of (step.now ∷ rest.now)) values.now) found.old found.new) }
{
    if !step.keeps(ent) {
        return Ok(false);
    }
    let Some(next) = join_atom(alloc, &sought.search, step.atom(), ent, values)? else {
        return Ok(false);
    };
    let full = collect_matches(alloc, sought, rest, &next, found)?;
    Ok(full)
}

// The places of the tuples with which values go on: of those that lead to the same values the first that the atom fits.
fn starts<'a>(
    alloc: Global,
    search: &Search<'a>,
    atom: &'a Atom,
    values: &Binding<'a>,
) -> Result<&'a [EntId], NoMemory> {
    let ents = candidates(search.relations, search.conditions.tests(), atom, values);
    if !is_known(atom, values) {
        return Ok(ents);
    }
    for place in 0..ents.len() {
        if let Some(_) = fit_atom(alloc, search.relations, atom, ents[place], values)? {
            return Ok(&ents[place..place + 1]);
        }
    }
    Ok(&[])
}

// Has each variable of an atom a value, so that all tuples that it fits lead to the same values?
fn is_known(atom: &Atom, values: &Binding) -> bool {
    for term in atom.terms.as_slice() {
        if let Term::Var(var) = term {
            if let None = values.value(*var) {
                return false;
            }
        }
    }
    true
}

// Adds the matches by these values of all variables, unless they were added before.
fn add_matches<'a>(
    alloc: Global,
    sought: &MatchSearch<'a>,
    values: &Binding<'a>,
    found: &mut MatchSet,
) -> Result<bool, NoMemory>
    ensures { IfOk result (λ full. AddsMatches (IsMatchWith sought.now.search.relations.now sought.now.atoms.now
        sought.now.number values.now) found.old found.new) }
{
    if !found.note(values.values(alloc)?)? {
        return Ok(false);
    }
    let wanted = found.left();
    let choices = choices_of(alloc, sought.search.relations, sought.atoms, values, wanted)?;
    add_each(alloc, sought, &choices, values, found)
}

// Adds a match for each choice of one tuple for each atom.
fn add_each<'a>(
    alloc: Global,
    sought: &MatchSearch<'a>,
    choices: &[EntList],
    values: &Binding<'a>,
    found: &mut MatchSet,
) -> Result<bool, NoMemory>
    requires { AllZip (AllFitAt sought.now.search.relations.now values.now) sought.now.atoms.now choices.now }
    ensures { IfOk result (λ full. AddsMatches (IsMatchWith sought.now.search.relations.now sought.now.atoms.now
        sought.now.number values.now) found.old found.new) }
{
    for place in 0..usize::MAX {
        let Some(entities) = choice(alloc, choices, place)? else {
            return Ok(false);
        };
        let all = values.values(alloc)?;
        let one = Match {
            disjunct: sought.number,
            entities,
            values: all,
        };
        if found.add(one)? {
            return Ok(true);
        }
    }
    Ok(false)
}
