ghost use Rattle.std.specs.Prelude.{◌≡◌, IfOk, OnOk, List, [], slice_index_or};
ghost use Rattle.std.specs.Bool.{OnTrue};
ghost use Rattle.currency_base.specs.declared.value.Value.{Value};
ghost use Rattle.query_model.specs.declared.query.Atom.{Atom};
ghost use Rattle.query_model.specs.declared.query.Test.{Test};
ghost use Rattle.semi_joins.specs.Kept.{AreKept, CanFit, IsMatched, Keeps, StayKept, StaysAll};

use crate::alone::is_unfit;
use crate::joins::with_partner;
use crate::kept::Kept;
use crate::links::{count_links, links_of};
use currency_base::{NoMemory, Tuple};
use query_model::{Atom, Term};
use query_plan::{Conditions, Step};
use spec_model::Instance;
use std::alloc::Global;

/// Is no row kept for one of some atoms, so that there is no match?
pub fn is_unmatched(kept: &[Kept]) -> bool
    ensures { OnTrue result ((instance : List (List (List Value))) (atoms : List Atom) (tests : List Test)
        → AreKept instance atoms tests kept.now → (values : List Value) → IsMatched instance atoms tests values → ⊥) }
{
    for one in kept {
        if one.is_none() {
            return true;
        }
    }
    false
}

/// For each of some atoms which rows of its relation can take part in a match: a row that is left out fits its atom in
/// none. Left out are rows that do not fit alone, and then those with no partner among the rows kept for an atom before
/// that shares most variables, from the last atom to the first, and back. Where atoms hang together as a tree, in the
/// order of a plan, each row that is kept so has a partner among those kept for each atom beside its own. The time is in
/// proportion to n log n for n rows.
pub fn kept_rows(
    alloc: Global,
    instance: &Instance,
    steps: &[Step],
    conditions: &Conditions,
) -> Result<Vec<Kept>, NoMemory>
    ensures { IfOk result (λ kept. AreKept instance.now.relations steps.now conditions.now.tests kept.items) }
{
    let mut kept = first_kept(alloc, instance, steps, conditions)?;
    join_up(alloc, instance, steps, conditions, &mut kept)?;
    join_down(alloc, instance, steps, conditions, &mut kept)?;
    Ok(kept)
}

// For each atom which rows of its relation fit alone.
fn first_kept(
    alloc: Global,
    instance: &Instance,
    steps: &[Step],
    conditions: &Conditions,
) -> Result<Vec<Kept>, NoMemory>
    ensures { IfOk result (λ kept. AreKept instance.now.relations steps.now conditions.now.tests kept.items) }
{
    let mut kept = Vec::new(alloc);
    for step in steps {
        let atom = step.atom();
        let rows = rows_of(instance, atom);
        kept.push(fitting_rows(alloc, rows, atom.terms.as_slice(), conditions)?)?;
    }
    Ok(kept)
}

// The rows of an atom's relation.
fn rows_of<'a>(instance: &'a Instance, atom: &Atom) -> &'a [Tuple]
    ensures { result.now ≡ slice_index_or instance.now.relations atom.now.relation.0 [] }
{
    match instance.relations.as_slice().get(atom.relation.0 as usize) {
        Some(rows) => rows.as_slice(),
        None => &[],
    }
}

// Of each of some rows, whether it fits alone.
fn fitting_rows(
    alloc: Global,
    rows: &[Tuple],
    terms: &[Term],
    conditions: &Conditions,
) -> Result<Kept, NoMemory>
    ensures { IfOk result (Keeps (λ place row. CanFit conditions.now.tests terms.now row) rows.now) }
{
    let mut kept = Kept::new(alloc);
    for row in rows {
        kept.push(!is_unfit(conditions, terms, row.as_slice()))?;
    }
    Ok(kept)
}

// From the last atom to the first, leaves out the rows of the one before with no partner in it.
fn join_up(
    alloc: Global,
    instance: &Instance,
    steps: &[Step],
    conditions: &Conditions,
    kept: &mut Vec<Kept>,
) -> Result<(), NoMemory>
    ensures { OnOk result (StayKept instance.now.relations steps.now conditions.now.tests kept.old.items kept.new.items) }
{
    for done in 0..steps.len() {
        let by = steps.len() - 1 - done;
        if let Some(before) = one_before(conditions, steps, by) {
            join(alloc, instance, steps, conditions, kept, before, by)?;
        }
    }
    Ok(())
}

// From the first atom to the last, leaves out its rows with no partner in the one before.
fn join_down(
    alloc: Global,
    instance: &Instance,
    steps: &[Step],
    conditions: &Conditions,
    kept: &mut Vec<Kept>,
) -> Result<(), NoMemory>
    ensures { OnOk result (StayKept instance.now.relations steps.now conditions.now.tests kept.old.items kept.new.items) }
{
    for at in 0..steps.len() {
        if let Some(before) = one_before(conditions, steps, at) {
            join(alloc, instance, steps, conditions, kept, at, before)?;
        }
    }
    Ok(())
}

// Leaves out the rows of an atom with no partner among those kept for another.
fn join(
    alloc: Global,
    instance: &Instance,
    steps: &[Step],
    conditions: &Conditions,
    kept: &mut Vec<Kept>,
    at: usize,
    by: usize,
) -> Result<(), NoMemory>
    ensures { OnOk result (StayKept instance.now.relations steps.now conditions.now.tests kept.old.items kept.new.items) }
{
    if at >= steps.len() || by >= steps.len() || at >= kept.len() || by >= kept.len() {
        return Ok(());
    }
    let next = joined(
        alloc,
        instance,
        conditions,
        steps[at].atom(),
        &kept[at],
        steps[by].atom(),
        &kept[by],
    )?;
    kept[at] = next;
    Ok(())
}

// Of each row of an atom, whether it is kept and has a partner among those kept for another.
fn joined(
    alloc: Global,
    instance: &Instance,
    conditions: &Conditions,
    one: &Atom,
    old: &Kept,
    other: &Atom,
    theirs: &Kept,
) -> Result<Kept, NoMemory>
    ensures { IfOk result (StaysAll instance.now.relations conditions.now.tests one.now other.now old.now theirs.now) }
{
    let links = links_of(
        alloc,
        conditions,
        one.terms.as_slice(),
        other.terms.as_slice(),
    )?;
    let rows = rows_of(instance, one);
    let others = rows_of(instance, other);
    let kept = with_partner(alloc, rows, old, others, theirs, &links)?;
    Ok(kept)
}

// Of the atoms before this one the first that shares most variables with it, if one shares any.
fn one_before(conditions: &Conditions, steps: &[Step], at: usize) -> Option<usize> {
    let step = steps.get(at)?;
    let terms = step.atom().terms.as_slice();
    let mut best = None;
    let mut most = 0usize;
    for before in 0..at {
        let shared = shared_with(conditions, terms, steps.get(before));
        if shared > most {
            best = Some(before);
            most = shared;
        }
    }
    best
}

// How many variables an atom shares with another.
fn shared_with(conditions: &Conditions, terms: &[Term], other: Option<&Step>) -> usize {
    match other {
        Some(step) => count_links(conditions, terms, step.atom().terms.as_slice()),
        None => 0,
    }
}
