ghost use Rattle.std.specs.Prelude.{◌≡◌, ◌<◌, ◌++◌, ◌∷◌, [], true, false, length, IfOk, IfSome, OnOk, Some, map, slice_index_or};
ghost use Rattle.currency_base.specs.Literals.{var_of};
ghost use Rattle.currency_base.specs.declared.lit.Lit.{Lit};
ghost use Rattle.order_literals.specs.Numbers.{is_wanted};
ghost use Rattle.order_links.specs.Lists.{IsListOf};
ghost use Rattle.last_rows.specs.Rows.{no_lit};
ghost use Rattle.refutation_log.specs.Counted.{counted_steps};
ghost use Rattle.refutation_log.specs.Steps.{clauses_of, step_of};
ghost use Rattle.order_search.specs.Kept.{AreRowsOf, HasAdded, IsOfList, vars_of};
ghost use Rattle.order_search.specs.Lasting.{AreAllRowsOf, AreFree, AreSaid, EachIs, IsDerivation, IsNextStep, KeepsHeld, KeepsHeldBy, KeepsAllTied, SaysBefore, SaysName, SaysTop, next_place};

use crate::linked::pair_at;
use crate::ordering::{Known, Ordered, order_rows};
use crate::progress::{Progress, root_value};
use crate::subject::Subject;
use completion_build::Cycle;
use currency_base::{Lit, NoMemory, RowId, laws_of_literals};
use flat_lists::FlatLists;
use last_rows::{RowList, are_there, derived};
use order_links::ListId;
use order_literals::one_literal;
use refutation_log::{LabelRef, StepRef, Steps};
use search_trail::Trail;
use solver_guides::Guides;
use std::alloc::Global;
use watch_solver::Solver;

/// Derives that some row of a list is last, and so that some value is current, where the current values of its relation are
/// wanted: behind its axioms on three rows, the first of which stands at this place. These steps are not counted. Of n rows they
/// are about a half of n squared, each of n literals, so they take memory as the axioms on three rows do: limit 7 lets n be at
/// most 64. Nothing is derived where the axioms are not found where they should stand, nor where one row alone can be the last.
pub(crate) fn add_lasts(
    subject: &Subject<'_>,
    progress: &mut Progress,
    alloc: Global,
    cycle: Cycle,
    first: usize,
    guides: &mut Guides,
) -> Result<(), NoMemory>
    requires cycle { IsOfList subject.now cycle }
    requires statements { progress.old.solver.frame.statements ≡ vars_of subject.now }
    ensures keeps { KeepsHeld subject.now progress.old.solver progress.new.solver }
    ensures tied { KeepsAllTied progress.old.solver progress.new.solver }
    ensures scope { progress.new.solver.trail.scope ≡ progress.old.solver.trail.scope }
    ensures added { HasAdded progress.old.solver progress.new.solver }
    ensures units { counted_steps progress.new.solver.steps ≡ counted_steps progress.old.solver.steps }
    ensures brought { progress.new.brought.items ≡ progress.old.brought.items }
{
    let list = ListId {
        rel: cycle.rel,
        attr: cycle.attr,
        ent: cycle.ent,
    };
    if !subject.is_wanted(cycle.rel)
        || is_topped(subject, progress.solver.trail(), list, subject.rows(list))
    {
        return Ok(());
    }
    match find_tops(
        alloc,
        subject.vars(),
        &progress.solver.log().steps,
        &mut progress.tops,
    ) {
        Ok(()) => {}
        Err(error) => return Err(error),
    }
    let steps = match derivation(
        subject,
        alloc,
        progress.solver.trail(),
        &progress.solver.log().steps,
        progress.tops.as_slice(),
        list,
        first,
    ) {
        Ok(Some(steps)) => steps,
        Ok(None) => return Ok(()),
        Err(error) => return Err(error),
    };
    put_all(&mut progress.solver, &steps, guides)
}

// Of the rows of a list, is there one alone that is not known, with nothing assumed, to stand before another? Then each other
// stands below one that stands below one, and so on up to it: it is the last, by the axioms on three rows.
fn is_topped(subject: &Subject<'_>, trail: &Trail, list: ListId, rows: &[RowId]) -> bool
    requires { AreRowsOf subject.now list rows.now }
{
    let mut tops: usize = 0;
    for place in 0..rows.len() {
        if !stands_below(subject, trail, list, rows, place) {
            tops = tops.saturating_add(1);
        }
    }
    tops == 1
}

// Is a row known, with nothing assumed, to stand before another of its list?
fn stands_below(
    subject: &Subject<'_>,
    trail: &Trail,
    list: ListId,
    rows: &[RowId],
    place: usize,
) -> bool
    requires rows { AreRowsOf subject.now list rows.now }
    requires place { place < length rows.now }
{
    for other in 0..rows.len() {
        if other != place {
            let lit = pair_at(subject, list, rows, place, other);
            if root_value(trail, lit.var()) == Some(!lit.negative()) {
                return true;
            }
        }
    }
    false
}

// Writes for each variable the place of the axiom `top` that begins with its literal, unless that was done before.
fn find_tops(alloc: Global, vars: u32, steps: &Steps, tops: &mut Vec<u32>) -> Result<(), NoMemory>
    ensures { OnOk result (tops.old.items ≡ [] → length tops.new.items ≡ vars) }
{
    if !tops.is_empty() {
        return Ok(());
    }
    match Vec::from_elem(alloc, 0, vars as usize) {
        Ok(made) => *tops = made,
        Err(_) => return Err(NoMemory),
    }
    for place in 0..steps.len() {
        note_top(steps.get(place), place, tops);
    }
    Ok(())
}

// Writes the place of a step for the variable of its first literal, if it is an axiom `top`.
fn note_top(step: StepRef<'_>, place: usize, tops: &mut Vec<u32>)
    ensures { length tops.new.items ≡ length tops.old.items }
{
    let StepRef::Axiom {
        label: LabelRef::Top { .. },
        lits,
    } = step
    else {
        return;
    };
    let (Some(lit), Ok(number)) = (lits.first(), u32::try_from(place)) else {
        return;
    };
    let var = lit.var() as usize;
    if var < tops.len() {
        tops[var] = number;
    }
}

// The steps by which some row of a list is last, if its axioms stand where they should.
fn derivation(
    subject: &Subject<'_>,
    alloc: Global,
    trail: &Trail,
    earlier: &Steps,
    tops: &[u32],
    list: ListId,
    first: usize,
) -> Result<Option<Steps>, NoMemory>
    requires list { IsListOf subject.now.spec.relations list }
    requires wanted { is_wanted subject.now.wanted.currents list.rel.0 ≡ true }
    ensures derived { IfOk result (λ found. IfSome found (IsDerivation (length (vars_of subject.now)) (clauses_of earlier.now))) }
    ensures free { IfOk result (λ found. IfSome found (AreFree subject.now)) }
{
    let Ordered { rows, known } = match order_rows(
        subject,
        alloc,
        trail,
        earlier,
        list,
        subject.rows(list),
    ) {
        Ok(Some(found)) => found,
        Ok(None) => return Ok(None),
        Err(error) => return Err(error),
    };
    if rows.is_empty() {
        return Ok(None);
    }
    let said = match said_of(subject, alloc, tops, list, rows.as_slice(), known, first) {
        Ok(said) => said,
        Err(error) => return Err(error),
    };
    match are_there(alloc, &said, earlier) {
        Ok(true) => {}
        Ok(false) => return Ok(None),
        Err(error) => return Err(error),
    }
    one_literal();
    laws_of_literals();
    match derived(alloc, &said, earlier) {
        Ok(steps) => Ok(Some(steps)),
        Err(error) => Err(error),
    }
}

// What is said of the rows of a list, and where their axioms should stand: behind each axiom `top` the axiom `last` of its row.
fn said_of(
    subject: &Subject<'_>,
    alloc: Global,
    tops: &[u32],
    list: ListId,
    rows: &[RowId],
    known: Known,
    first: usize,
) -> Result<RowList, NoMemory>
    requires rows { AreAllRowsOf subject.now list rows.now }
    requires wanted { is_wanted subject.now.wanted.currents list.rel.0 ≡ true }
    ensures { IfOk result (AreSaid subject.now list rows.now) }
{
    let top_lits = match tops_of(subject, alloc, list, rows) {
        Ok(lits) => lits,
        Err(error) => return Err(error),
    };
    let names = match names_of(subject, alloc, list, rows) {
        Ok(lits) => lits,
        Err(error) => return Err(error),
    };
    let befores = match befores_of(subject, alloc, list, rows) {
        Ok(lists) => lists,
        Err(error) => return Err(error),
    };
    let Places {
        top_places,
        last_places,
        thirds,
        seconds,
    } = match places_of(alloc, tops, top_lits.as_slice(), first) {
        Ok(places) => places,
        Err(error) => return Err(error),
    };
    Ok(RowList {
        tops: top_lits,
        befores,
        names,
        top_places,
        last_places,
        thirds,
        seconds,
        numbers: known.numbers,
        kept: known.kept,
        laters: known.laters,
        later_places: known.later_places,
    })
}

// For each row the literal that it stands last.
fn tops_of(
    subject: &Subject<'_>,
    alloc: Global,
    list: ListId,
    rows: &[RowId],
) -> Result<Vec<Lit>, NoMemory>
    requires rows { AreAllRowsOf subject.now list rows.now }
    requires wanted { is_wanted subject.now.wanted.currents list.rel.0 ≡ true }
    ensures { IfOk result (λ lits. EachIs no_lit (SaysTop subject.now list rows.now) (length rows.now) lits.items) }
{
    let mut lits = Vec::new(alloc);
    for place in 0..rows.len() {
        let lit = subject.top(list.rel, list.attr, rows[place]);
        match lits.push(lit) {
            Ok(()) => {}
            Err(_) => return Err(NoMemory),
        }
    }
    Ok(lits)
}

// For each row the literal that its value is current.
fn names_of(
    subject: &Subject<'_>,
    alloc: Global,
    list: ListId,
    rows: &[RowId],
) -> Result<Vec<Lit>, NoMemory>
    requires rows { AreAllRowsOf subject.now list rows.now }
    requires wanted { is_wanted subject.now.wanted.currents list.rel.0 ≡ true }
    ensures { IfOk result (λ lits. EachIs no_lit (SaysName subject.now list rows.now) (length rows.now) lits.items) }
{
    let mut lits = Vec::new(alloc);
    for place in 0..rows.len() {
        let lit = subject.current(list.rel, list.attr, rows[place]);
        match lits.push(lit) {
            Ok(()) => {}
            Err(_) => return Err(NoMemory),
        }
    }
    Ok(lits)
}

// For each row, for each other the literal that the one stands before the other.
fn befores_of(
    subject: &Subject<'_>,
    alloc: Global,
    list: ListId,
    rows: &[RowId],
) -> Result<FlatLists<Lit>, NoMemory>
    requires rows { AreAllRowsOf subject.now list rows.now }
    ensures { IfOk result (EachIs [] (λ i lits. EachIs no_lit (SaysBefore subject.now list rows.now i) (length rows.now) lits)
        (length rows.now)) }
{
    let mut lists = FlatLists::new(alloc);
    let mut lits = Vec::new(alloc);
    for place in 0..rows.len() {
        match write_befores(subject, list, rows, place, &mut lits) {
            Ok(()) => {}
            Err(error) => return Err(error),
        }
        match lists.push(lits.as_slice()) {
            Ok(()) => {}
            Err(error) => return Err(error),
        }
    }
    Ok(lists)
}

// For each other row the literal that the row at a place stands before it.
fn write_befores(
    subject: &Subject<'_>,
    list: ListId,
    rows: &[RowId],
    place: usize,
    lits: &mut Vec<Lit>,
) -> Result<(), NoMemory>
    requires rows { AreAllRowsOf subject.now list rows.now }
    requires place { place < length rows.now }
    ensures { OnOk result (EachIs no_lit (SaysBefore subject.now list rows.now place) (length rows.now) lits.new.items) }
{
    lits.clear();
    for other in 0..rows.len() {
        let lit = if other == place {
            Lit::new(0, false)
        } else {
            subject.before(list.rel, list.attr, rows[place], rows[other])
        };
        match lits.push(lit) {
            Ok(()) => {}
            Err(_) => return Err(NoMemory),
        }
    }
    Ok(())
}

// Where the axioms on the rows of a list should stand, as a `RowList` has it.
#[derive(Drop)]
struct Places {
    top_places: Vec<u32>,
    last_places: Vec<u32>,
    thirds: Vec<u32>,
    seconds: Vec<u32>,
}

// Those of rows whose standing last is said by these literals. The axioms on three rows stand from this place on in the order of
// their greatest row, then of the second greatest, then of the least, two for each three rows. So n (n - 1) of them have row n
// for the greatest, and as many stand, among those of each greater row, before the first that has row n for the second greatest.
fn places_of(alloc: Global, tops: &[u32], lits: &[Lit], first: usize) -> Result<Places, NoMemory>
    ensures tops { IfOk result (λ p. p.top_places.items ≡ map (λ lit. slice_index_or tops.now (var_of lit) 0) lits.now) }
    ensures lasts { IfOk result (λ p. p.last_places.items ≡ map next_place p.top_places.items) }
    ensures thirds { IfOk result (λ p. length p.thirds.items ≡ length lits.now) }
    ensures seconds { IfOk result (λ p. length p.seconds.items ≡ length lits.now) }
{
    let mut places = Places {
        top_places: Vec::new(alloc),
        last_places: Vec::new(alloc),
        thirds: Vec::new(alloc),
        seconds: Vec::new(alloc),
    };
    let mut third = u32::try_from(first).unwrap_or(u32::MAX);
    let mut row: u32 = 0;
    for lit in lits {
        let top = tops.get(lit.var() as usize).copied().unwrap_or(0);
        let pairs = row.saturating_mul(row.saturating_sub(1));
        match places.put(top, third, pairs) {
            Ok(()) => {}
            Err(error) => return Err(error),
        }
        third = third.saturating_add(pairs);
        row = row.saturating_add(1);
    }
    Ok(places)
}

impl Places {
    // Puts those of a row after the others.
    fn put(&mut self, top: u32, third: u32, pairs: u32) -> Result<(), NoMemory>
        ensures tops { OnOk result (self.new.top_places.items ≡ self.old.top_places.items ++ top ∷ []) }
        ensures lasts { OnOk result (self.new.last_places.items ≡ self.old.last_places.items ++ next_place top ∷ []) }
        ensures thirds { OnOk result (self.new.thirds.items ≡ self.old.thirds.items ++ third ∷ []) }
        ensures seconds { OnOk result (self.new.seconds.items ≡ self.old.seconds.items ++ pairs ∷ []) }
    {
        match self.top_places.push(top) {
            Ok(()) => {}
            Err(_) => return Err(NoMemory),
        }
        match self.last_places.push(top.saturating_add(1)) {
            Ok(()) => {}
            Err(_) => return Err(NoMemory),
        }
        match self.thirds.push(third) {
            Ok(()) => {}
            Err(_) => return Err(NoMemory),
        }
        match self.seconds.push(pairs) {
            Ok(()) => Ok(()),
            Err(_) => Err(NoMemory),
        }
    }
}

// Puts these steps after the others; where memory runs out, the first of them.
fn put_all(solver: &mut Solver, steps: &Steps, guides: &mut Guides) -> Result<(), NoMemory>
    requires { IsDerivation (length solver.old.frame.statements) (clauses_of solver.old.steps) steps.now }
    ensures keeps { KeepsHeldBy steps.now solver.old solver.new }
    ensures tied { KeepsAllTied solver.old solver.new }
    ensures scope { solver.new.trail.scope ≡ solver.old.trail.scope }
    ensures added { HasAdded solver.old solver.new }
    ensures units { counted_steps solver.new.steps ≡ counted_steps solver.old.steps }
{
    for place in 0..steps.len() {
        match put(solver, steps.get(place), guides) {
            Ok(()) => {}
            Err(error) => return Err(error),
        }
    }
    Ok(())
}

// Puts a derived step after the others. It is not counted.
fn put(solver: &mut Solver, step: StepRef<'_>, guides: &mut Guides) -> Result<(), NoMemory>
    requires { IsNextStep (length solver.old.frame.statements) (clauses_of solver.old.steps) (step_of step) }
    ensures keeps { KeepsHeldBy (step_of step.entry ∷ []) solver.old solver.new }
    ensures tied { KeepsAllTied solver.old solver.new }
    ensures scope { solver.new.trail.scope ≡ solver.old.trail.scope }
    ensures added { HasAdded solver.old solver.new }
    ensures units { counted_steps solver.new.steps ≡ counted_steps solver.old.steps }
    ensures ok { OnOk result (solver.new.steps ≡ solver.old.steps ++ step_of step.entry ∷ []) }
{
    match step {
        StepRef::Learn {
            lits,
            hints,
            counted: _,
        } => match solver.add_derived(lits, hints, guides) {
            Ok(_) => Ok(()),
            Err(error) => Err(error),
        },
        _ => unreachable!(),
    }
}
