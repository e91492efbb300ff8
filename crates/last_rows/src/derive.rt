ghost use Rattle.std.specs.Prelude.{◌≡◌, ◌<◌, ◌+◌, ◌∷◌, ◌++◌, [], false, length, set, IfOk, OnOk};
ghost use Rattle.last_rows.specs.Rows.{AreApart, AreDerived, EndsCurrent, IsPlaced, literals_of};
ghost use Rattle.last_rows.specs.Underway.{IsBetween, IsUnderway};
ghost use Rattle.refutation_log.specs.Steps.{clauses_of};
ghost use Rattle.refutation_log.specs.declared.step.Step.TheVariants.{Learn};

use crate::RowList;
use crate::derivation::{
    Derivation, number, write_hints, write_lasts, write_left, write_lits, write_names,
};
use currency_base::NoMemory;
use refutation_log::{StepRef, Steps};
use std::alloc::Global;

/// The steps by which some row of a list is last, and then some value current, from these. Where of n rows m are kept, the
/// others are left out first, by one step for each of the m, with at most two hints for each of the others and one more; where
/// m is n there is no such step. Then come a half of m (m - 1) with at most m hints each, and one more step. Each is a clause of
/// at most n literals. So they take at most memory as the axioms on three rows do, which there are a third of n (n - 1) (n - 2).
/// No hint of a step is idle: none stands twice, and each but the last adds a literal.
pub fn derived(alloc: Global, list: &RowList, earlier: &Steps) -> Result<Steps, NoMemory>
    requires some { 0 < length list.now.tops.items }
    requires apart { AreApart (literals_of list.now) }
    requires placed { IsPlaced list.now (clauses_of earlier.now) }
    ensures each { IfOk result (AreDerived (literals_of list.now) (clauses_of earlier.now)) }
    ensures current { IfOk result (EndsCurrent (literals_of list.now) (clauses_of earlier.now)) }
{
    let mut derivation = begun(alloc, list)?;
    leave_known(list, earlier, &mut derivation)?;
    leave_first(list, earlier, &mut derivation)?;
    put_current(list, earlier, &mut derivation)?;
    Ok(derivation.steps)
}

// No step, where the clause of each row is the axiom.
fn begun(alloc: Global, list: &RowList) -> Result<Derivation, NoMemory>
    ensures places { IfOk result (λ d. d.places.items ≡ list.now.top_places.items) }
    ensures steps { IfOk result (λ d. d.steps ≡ []) }
{
    let mut places = Vec::new(alloc);
    for place in &list.top_places {
        match places.push(*place) {
            Ok(()) => {}
            Err(_) => return Err(NoMemory),
        }
    }
    Ok(Derivation {
        steps: Steps::new(alloc),
        places,
        lits: Vec::new(alloc),
        hints: Vec::new(alloc),
    })
}

// Leaves out the rows of which a later one is known; where there is none the clauses stay.
fn leave_known(list: &RowList, earlier: &Steps, derivation: &mut Derivation) -> Result<(), NoMemory>
    requires apart { AreApart (literals_of list.now) }
    requires placed { IsPlaced list.now (clauses_of earlier.now) }
    requires steps { derivation.old.steps ≡ [] }
    requires places { derivation.old.places.items ≡ list.now.top_places.items }
    ensures { OnOk result (IsBetween list.now (clauses_of earlier.now) derivation.new (length list.now.tops.items) list.now.kept
        list.now.kept) }
{
    if list.kept == list.count() {
        return Ok(());
    }
    for own in 0..list.kept {
        leave_known_at(list, earlier, derivation, own)?;
    }
    Ok(())
}

// Derives the clause of a row without those of which a later one is known.
fn leave_known_at(
    list: &RowList,
    earlier: &Steps,
    derivation: &mut Derivation,
    own: usize,
) -> Result<(), NoMemory>
    requires apart { AreApart (literals_of list.now) }
    requires placed { IsPlaced list.now (clauses_of earlier.now) }
    requires own { own < list.now.kept }
    requires underway { IsBetween list.now (clauses_of earlier.now) derivation.old (length list.now.tops.items) list.now.kept
        own }
    ensures { OnOk result (IsBetween list.now (clauses_of earlier.now) derivation.new (length list.now.tops.items) list.now.kept
        (own + 1)) }
{
    write_lits(list, list.kept, own, &mut derivation.lits)?;
    write_left(
        list,
        earlier,
        derivation.places.as_slice(),
        own,
        &mut derivation.hints,
    )?;
    put_row(earlier, derivation, own)
}

// Leaves out one row after another of those that are kept, from the last on, up to the first.
fn leave_first(list: &RowList, earlier: &Steps, derivation: &mut Derivation) -> Result<(), NoMemory>
    requires apart { AreApart (literals_of list.now) }
    requires placed { IsPlaced list.now (clauses_of earlier.now) }
    requires underway { IsBetween list.now (clauses_of earlier.now) derivation.old (length list.now.tops.items) list.now.kept
        list.now.kept }
    ensures { OnOk result (IsUnderway list.now (clauses_of earlier.now) derivation.new 0 0) }
{
    let kept = list.kept;
    for done in 1..kept {
        leave_out(list, earlier, derivation, kept - done)?;
    }
    Ok(())
}

// Derives the clause of each row before a later one without that.
fn leave_out(
    list: &RowList,
    earlier: &Steps,
    derivation: &mut Derivation,
    later: usize,
) -> Result<(), NoMemory>
    requires apart { AreApart (literals_of list.now) }
    requires placed { IsPlaced list.now (clauses_of earlier.now) }
    requires later { later < length list.now.tops.items }
    requires underway { IsUnderway list.now (clauses_of earlier.now) derivation.old later 0 }
    ensures { OnOk result (IsUnderway list.now (clauses_of earlier.now) derivation.new later later) }
{
    for own in 0..later {
        leave_at(list, earlier, derivation, own, later)?;
    }
    Ok(())
}

// Derives the clause of a row without a later one.
fn leave_at(
    list: &RowList,
    earlier: &Steps,
    derivation: &mut Derivation,
    own: usize,
    later: usize,
) -> Result<(), NoMemory>
    requires apart { AreApart (literals_of list.now) }
    requires placed { IsPlaced list.now (clauses_of earlier.now) }
    requires later { later < length list.now.tops.items }
    requires own { own < later }
    requires underway { IsUnderway list.now (clauses_of earlier.now) derivation.old later own }
    ensures { OnOk result (IsUnderway list.now (clauses_of earlier.now) derivation.new later (own + 1)) }
{
    write_lits(list, later, own, &mut derivation.lits)?;
    write_hints(
        list,
        earlier,
        derivation.places.as_slice(),
        own,
        later,
        &mut derivation.hints,
    )?;
    put_row(earlier, derivation, own)
}

// Derives that some value is current.
fn put_current(list: &RowList, earlier: &Steps, derivation: &mut Derivation) -> Result<(), NoMemory>
    requires some { 0 < length list.now.tops.items }
    requires apart { AreApart (literals_of list.now) }
    requires placed { IsPlaced list.now (clauses_of earlier.now) }
    requires underway { IsUnderway list.now (clauses_of earlier.now) derivation.old 0 0 }
    ensures each { OnOk result (AreDerived (literals_of list.now) (clauses_of earlier.now) derivation.new.steps) }
    ensures current { OnOk result (EndsCurrent (literals_of list.now) (clauses_of earlier.now) derivation.new.steps) }
{
    write_names(list, &mut derivation.lits)?;
    write_lasts(list, derivation.places[0], &mut derivation.hints)?;
    put_step(derivation)
}

// Puts the step of the literals and the hints after the others, as the one whose clause is this row's.
fn put_row(earlier: &Steps, derivation: &mut Derivation, own: usize) -> Result<(), NoMemory>
    requires { own < length derivation.old.places.items }
    ensures steps { OnOk result (derivation.new.steps ≡ derivation.old.steps
        ++ Learn derivation.old.lits.items derivation.old.hints.items false ∷ []) }
    ensures places { OnOk result (derivation.new.places.items ≡ set derivation.old.places.items own
        (length earlier.now + length derivation.old.steps)) }
{
    let place = number(earlier, &derivation.steps)?;
    put_step(derivation)?;
    derivation.places[own] = place;
    Ok(())
}

// Puts the step of the literals and the hints after the others.
fn put_step(derivation: &mut Derivation) -> Result<(), NoMemory>
    ensures steps { OnOk result (derivation.new.steps ≡ derivation.old.steps
        ++ Learn derivation.old.lits.items derivation.old.hints.items false ∷ []) }
    ensures places { derivation.new.places.items ≡ derivation.old.places.items }
{
    derivation.steps.push(StepRef::Learn {
        lits: derivation.lits.as_slice(),
        hints: derivation.hints.as_slice(),
        counted: false,
    })
}
