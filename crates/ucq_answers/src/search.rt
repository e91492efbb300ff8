ghost use Rattle.std.specs.Prelude.{◌≡◌, ◌∷◌, [], Some, IfNone, IfOk, IfSome, option_and_then, slice_get, true, Contains};
ghost use Rattle.ucq_answers.specs.Found.{Adds, IsFound, IsFoundAt, IsHeadAt};
ghost use Rattle.ucq_answers.specs.Kept.{FitKept, atoms_of};
ghost use Rattle.ucq_answers.specs.Lookups.{AreCandidates};
ghost use Rattle.ucq_answers.specs.Partly.{IsHeadOfSome, fit, head_at, joined_at, tuples_of};

use crate::answer_set::{Answer, AnswerSet};
use crate::binding::Binding;
use crate::comparisons::passes;
use crate::prepared::SearchedAtom;
use crate::relation_index::RelationIndex;
use currency_base::{EntId, NoMemory, Tuple};
use query_model::{Atom, Test};
use query_plan::Conditions;
use std::alloc::Global;

/// What is searched for a disjunct: the relations, its comparisons with what follows of them, and the variables of its
/// head.
#[derive(Drop)]
pub(crate) struct Search<'a> {
    pub relations: &'a [RelationIndex<'a>],
    pub conditions: &'a Conditions<'a>,
    pub head: &'a [u32],
}

/// Values of all variables of these atoms that go on from some values, for which each atom holds and no
/// comparison fails; none, if there are none. Takes up a value only while no comparison fails.
#[cycle(find)]
pub(crate) fn find<'a>(
    alloc: Global,
    search: &Search<'a>,
    steps: &'a [SearchedAtom<'a>],
    values: &Binding<'a>,
) -> Result<Option<Binding<'a>>, NoMemory>
    requires { FitKept search.now.relations.now search.now.conditions.now steps.now values.now }
    ensures { IfOk result (IsFound search.now.relations.now search.now.conditions.now (atoms_of steps.now) values.now) }
{
    let tests = search.conditions.tests();
    if !passes(values, tests) {
        return Ok(None);
    }
    let Some((step, rest)) = next_step(steps) else {
        return Ok(Some(values.duplicate(alloc)?));
    };
    for ent in candidates(search.relations, tests, step.atom(), values) {
        if let Some(found) = find_at(alloc, search, step, rest, *ent, values)? {
            return Ok(Some(found));
        }
    }
    Ok(None)
}

// Such values that begin with the tuple at this place.
#[cycle(find)]
fn find_at<'a>(
    alloc: Global,
    search: &Search<'a>,
    step: &'a SearchedAtom<'a>,
    rest: &'a [SearchedAtom<'a>],
    ent: EntId,
    values: &Binding<'a>,
) -> Result<Option<Binding<'a>>, NoMemory>
    requires { FitKept search.now.relations.now search.now.conditions.now (step.now ∷ rest.now) values.now }
    ensures { IfOk result (IsFoundAt search.now.relations.now search.now.conditions.now step.now.atom
        (atoms_of rest.now) values.now ent) }
{
    if !step.keeps(ent) {
        return Ok(None);
    }
    let Some(next) = join_atom(alloc, search, step.atom(), ent, values)? else {
        return Ok(None);
    };
    let found = find(alloc, search, rest, &next)?;
    Ok(found)
}

/// Adds to the answers the values of the head's variables in all values that go on from some values, for
/// which each atom holds and no comparison fails. Once the head's variables have values, goes on only until
/// some values are found, and not at all where these are an answer by now. Says whether it stopped since there
/// are too many answers.
#[cycle(collect)]
pub(crate) fn collect<'a>(
    alloc: Global,
    search: &Search<'a>,
    steps: &'a [SearchedAtom<'a>],
    values: &Binding<'a>,
    answers: &mut AnswerSet,
) -> Result<bool, NoMemory>
    requires { FitKept search.now.relations.now search.now.conditions.now steps.now values.now }
    ensures { IfOk result (Adds (IsHeadOfSome search.now.relations.now search.now.conditions.now search.now.head.now
        (atoms_of steps.now) values.now) answers.old answers.new) }
{
    let tests = search.conditions.tests();
    if !passes(values, tests) {
        return Ok(false);
    }
    if let Some(tuple) = values.head(alloc, search.head)? {
        return add_found(alloc, search, steps, values, Answer::new(tuple), answers);
    }
    let Some((step, rest)) = next_step(steps) else {
        return Ok(false);
    };
    for ent in candidates(search.relations, tests, step.atom(), values) {
        if collect_at(alloc, search, step, rest, *ent, values, answers)? {
            return Ok(true);
        }
    }
    Ok(false)
}

// Adds those that begin with the tuple at this place.
#[cycle(collect)]
fn collect_at<'a>(
    alloc: Global,
    search: &Search<'a>,
    step: &'a SearchedAtom<'a>,
    rest: &'a [SearchedAtom<'a>],
    ent: EntId,
    values: &Binding<'a>,
    answers: &mut AnswerSet,
) -> Result<bool, NoMemory>
    requires { FitKept search.now.relations.now search.now.conditions.now (step.now ∷ rest.now) values.now }
    ensures { IfOk result (Adds (IsHeadAt search.now.relations.now search.now.conditions.now search.now.head.now step.now.atom
        (atoms_of rest.now) values.now ent) answers.old answers.new) }
{
    if !step.keeps(ent) {
        return Ok(false);
    }
    let Some(next) = join_atom(alloc, search, step.atom(), ent, values)? else {
        return Ok(false);
    };
    let full = collect(alloc, search, rest, &next, answers)?;
    Ok(full)
}

// Adds a tuple, the values of the head's variables, if some values go on from these.
fn add_found<'a>(
    alloc: Global,
    search: &Search<'a>,
    steps: &'a [SearchedAtom<'a>],
    values: &Binding<'a>,
    answer: Answer,
    answers: &mut AnswerSet,
) -> Result<bool, NoMemory>
    requires { FitKept search.now.relations.now search.now.conditions.now steps.now values.now }
    ensures { IfOk result (λ full. head_at values.now search.now.head.now ≡ Some answer
        → Adds (IsHeadOfSome search.now.relations.now search.now.conditions.now search.now.head.now
        (atoms_of steps.now) values.now) answers.old answers.new full) }
{
    if is_known(steps, answers, &answer) {
        return Ok(false);
    }
    let Some(_) = find(alloc, search, steps, values)? else {
        return Ok(false);
    };
    Ok(answers.add(answer)?)
}

// Is a tuple an answer by now? It is not looked for where no atom is left, since it is added as soon then.
fn is_known(steps: &[SearchedAtom], answers: &AnswerSet, answer: &Answer) -> bool
    ensures { result ≡ true → Contains answers.now.tuples answer.now }
{
    steps.len() > 0 && answers.has(answer)
}

/// The atom that is searched next, and those after it.
pub(crate) fn next_step<'a>(
    steps: &'a [SearchedAtom<'a>],
) -> Option<(&'a SearchedAtom<'a>, &'a [SearchedAtom<'a>])>
    ensures some { IfSome result (λ next. steps.now ≡ next.0.now ∷ next.1.now) }
    ensures none { IfNone result (steps.now ≡ []) }
{
    match steps {
        [] => None,
        [step, rest @ ..] => Some((step, rest)),
    }
}

/// The places of tuples of an atom's relation among which all are that the atom's terms can fit with no comparison
/// failing.
pub(crate) fn candidates<'a>(
    relations: &'a [RelationIndex<'a>],
    tests: &[Test],
    atom: &Atom,
    values: &Binding,
) -> &'a [EntId]
    ensures { AreCandidates (tuples_of relations.now atom.now) tests.now atom.now.terms values.now result.now }
{
    match relations.get(atom.relation.0 as usize) {
        Some(relation) => relation.candidates(tests, atom.terms.as_slice(), values),
        None => &[],
    }
}

/// The values once an atom's terms fit a tuple of its relation, and what follows, if they can.
pub(crate) fn join_atom<'a>(
    alloc: Global,
    search: &Search<'a>,
    atom: &'a Atom,
    ent: EntId,
    values: &Binding<'a>,
) -> Result<Option<Binding<'a>>, NoMemory>
    ensures { IfOk result (λ next. next ≡ joined_at search.now.conditions.now.equalities search.now.relations.now
        atom.now values.now ent) }
{
    let Some(mut next) = fit_atom(alloc, search.relations, atom, ent, values)? else {
        return Ok(None);
    };
    next.spread(search.conditions.equalities());
    Ok(Some(next))
}

/// The values once an atom's terms fit a tuple of its relation, if they can.
pub(crate) fn fit_atom<'a>(
    alloc: Global,
    relations: &'a [RelationIndex<'a>],
    atom: &'a Atom,
    ent: EntId,
    values: &Binding<'a>,
) -> Result<Option<Binding<'a>>, NoMemory>
    ensures { IfOk result (λ next. next ≡ option_and_then (λ tuple. fit values.now atom.now.terms tuple)
        (slice_get (tuples_of relations.now atom.now) ent.0)) }
{
    match relations.get(atom.relation.0 as usize) {
        Some(relation) => relation.fit(alloc, ent, atom.terms.as_slice(), values),
        None => Ok(None),
    }
}
