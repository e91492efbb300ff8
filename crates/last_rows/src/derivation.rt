ghost use Rattle.std.specs.Prelude.{Contains, false, true, ◌≡◌, ◌<◌, ◌≤◌, ◌+◌, ◌-◌, ◌∷◌, ◌++◌, [], length, IfOk, OnOk, slice_index_or};
ghost use Rattle.last_rows.specs.Hints.{current_hints, known_hints, left_hints, row_hints, three_hint, three_hints};
ghost use Rattle.last_rows.specs.Rows.{AreThere, IsPlaced, IsSquare, clause_lits, each_below, later_of, later_place_of, lit_of, literals_of};
ghost use Rattle.last_rows.specs.Underway.{AreNames};
ghost use Rattle.refutation_log.specs.Steps.{clauses_of};

use crate::RowList;
use currency_base::{Lit, NoMemory};
use refutation_log::Steps;

/// What is derived so far: the steps; for each row the place of the clause of it that came last; and room for the literals and
/// the hints of a step.
#[derive(Drop)]
pub(crate) struct Derivation {
    pub steps: Steps,
    pub places: Vec<u32>,
    pub lits: Vec<Lit>,
    pub hints: Vec<u32>,
}

/// Writes the clause that of the first rows, so many, one stands before this, or that this stands last, or one behind them.
pub(crate) fn write_lits(
    list: &RowList,
    first: usize,
    own: usize,
    lits: &mut Vec<Lit>,
) -> Result<(), NoMemory>
    requires square { IsSquare list.now }
    requires own { own < length list.now.tops.items }
    ensures { OnOk result (lits.new.items ≡ clause_lits (literals_of list.now) first own) }
{
    lits.clear();
    for row in 0..list.tops.len() {
        put_lit(lits, list.lit(first, own, row))?;
    }
    Ok(())
}

/// Writes the hints by which the clause of a row follows without a later row, where the clauses with it stand at these places.
pub(crate) fn write_hints(
    list: &RowList,
    earlier: &Steps,
    places: &[u32],
    own: usize,
    later: usize,
    hints: &mut Vec<u32>,
) -> Result<(), NoMemory>
    requires square { IsSquare list.now }
    requires few { length list.now.tops.items ≤ 65536 }
    requires few_steps { length (clauses_of earlier.now) ≤ 4294967296 }
    requires there { AreThere list.now (clauses_of earlier.now) }
    requires places { length places.now ≡ length list.now.tops.items }
    requires later { later < length list.now.tops.items }
    requires own { own < later }
    ensures { OnOk result (hints.new.items ≡ row_hints list.now places.now own later) }
{
    hints.clear();
    put(hints, places[own])?;
    put_threes(list, earlier, own, later, hints)?;
    put(hints, places[later])
}

// Puts the places of the axioms on three rows after the others.
fn put_threes(
    list: &RowList,
    earlier: &Steps,
    own: usize,
    later: usize,
    hints: &mut Vec<u32>,
) -> Result<(), NoMemory>
    requires square { IsSquare list.now }
    requires few { length list.now.tops.items ≤ 65536 }
    requires few_steps { length (clauses_of earlier.now) ≤ 4294967296 }
    requires there { AreThere list.now (clauses_of earlier.now) }
    requires later { later < length list.now.tops.items }
    requires own { own < later }
    ensures { OnOk result (hints.new.items ≡ hints.old.items ++ three_hints list.now own later later) }
{
    for row in 0..later {
        put_three(list, earlier, own, later, row, hints)?;
    }
    Ok(())
}

// Puts the place of the axiom on a row, this and a later one after the others, unless the row is this.
fn put_three(
    list: &RowList,
    earlier: &Steps,
    own: usize,
    later: usize,
    row: usize,
    hints: &mut Vec<u32>,
) -> Result<(), NoMemory>
    requires square { IsSquare list.now }
    requires few { length list.now.tops.items ≤ 65536 }
    requires few_steps { length (clauses_of earlier.now) ≤ 4294967296 }
    requires there { AreThere list.now (clauses_of earlier.now) }
    requires later { later < length list.now.tops.items }
    requires own { own < later }
    requires row { row < later }
    ensures { OnOk result (hints.new.items ≡ hints.old.items ++ three_hint list.now own later row) }
{
    if row == own {
        return Ok(());
    }
    put(hints, list.three(row, own, later) as u32)
}

/// Writes the hints by which the clause of a row follows without the rows of which a later one is known, where the clause with
/// them stands at this row's place.
pub(crate) fn write_left(
    list: &RowList,
    earlier: &Steps,
    places: &[u32],
    own: usize,
    hints: &mut Vec<u32>,
) -> Result<(), NoMemory>
    requires placed { IsPlaced list.now (clauses_of earlier.now) }
    requires places { length places.now ≡ length list.now.tops.items }
    requires own { own < list.now.kept }
    ensures { OnOk result (hints.new.items ≡ left_hints list.now places.now own) }
{
    hints.clear();
    put_known(list, earlier, own, hints)?;
    put(hints, places[own])
}

// Puts the hints of the rows of which a later one is known after the others.
fn put_known(
    list: &RowList,
    earlier: &Steps,
    own: usize,
    hints: &mut Vec<u32>,
) -> Result<(), NoMemory>
    requires placed { IsPlaced list.now (clauses_of earlier.now) }
    requires own { own < list.now.kept }
    ensures { OnOk result (hints.new.items ≡ hints.old.items
        ++ known_hints list.now own (length list.now.tops.items - list.now.kept)) }
{
    for more in 0..list.count() - list.kept {
        put_known_of(list, earlier, own, list.kept + more, hints)?;
    }
    Ok(())
}

// Puts those of one of these rows after the others.
fn put_known_of(
    list: &RowList,
    earlier: &Steps,
    own: usize,
    later: usize,
    hints: &mut Vec<u32>,
) -> Result<(), NoMemory>
    requires placed { IsPlaced list.now (clauses_of earlier.now) }
    requires own { own < list.now.kept }
    requires kept { list.now.kept ≤ later }
    requires later { later < length list.now.tops.items }
    ensures { OnOk result (hints.new.items ≡ (hints.old.items ++ later_place_of list.now later ∷ [])
        ++ three_hint list.now own later (later_of list.now later)) }
{
    put(hints, list.later_place(later))?;
    put_three(list, earlier, own, later, list.later(later), hints)
}

/// Writes the names of the rows, each once.
pub(crate) fn write_names(list: &RowList, lits: &mut Vec<Lit>) -> Result<(), NoMemory>
    requires square { IsSquare list.now }
    ensures { OnOk result (AreNames (literals_of list.now) (length list.now.tops.items) lits.new.items) }
{
    lits.clear();
    for row in 0..list.tops.len() {
        put_name(list, row, lits)?;
    }
    Ok(())
}

// Puts the name of a row after the others, if it is not among them.
#[tactic(auto, using(crate::proofs::Threes::names_there, crate::proofs::Threes::names_more))]
fn put_name(list: &RowList, row: usize, lits: &mut Vec<Lit>) -> Result<(), NoMemory>
    requires square { IsSquare list.now }
    requires row { row < length list.now.tops.items }
    ensures { OnOk result (AreNames (literals_of list.now) row lits.old.items → AreNames (literals_of list.now) (row + 1) lits.new.items) }
{
    let name = list.name(row);
    if is_in(lits.as_slice(), name) {
        return Ok(());
    }
    put_lit(lits, name)
}

/// Writes the hints by which some value is current, where the clause that some row is last stands at a place.
pub(crate) fn write_lasts(list: &RowList, place: u32, hints: &mut Vec<u32>) -> Result<(), NoMemory>
    requires { length list.now.last_places.items ≡ length list.now.tops.items }
    ensures { OnOk result (hints.new.items ≡ current_hints list.now (length list.now.tops.items) place) }
{
    hints.clear();
    for row in 0..list.tops.len() {
        put(hints, list.last_place(row))?;
    }
    put(hints, place)
}

/// The number of the step that comes next.
pub(crate) fn number(earlier: &Steps, steps: &Steps) -> Result<u32, NoMemory>
    ensures { IfOk result (λ number. number ≡ length earlier.now + length steps.now) }
{
    let Some(sum) = earlier.len().checked_add(steps.len()) else {
        return Err(NoMemory);
    };
    match u32::try_from(sum) {
        Ok(number) => Ok(number),
        Err(_) => Err(NoMemory),
    }
}

/// Is a literal among these?
pub(crate) fn is_in(lits: &[Lit], lit: Lit) -> bool
    ensures yes { result ≡ true → Contains lits.now lit }
    ensures no { result ≡ false → Contains lits.now lit → ⊥ }
{
    lits.contains(&lit)
}

// Puts a literal after the others.
fn put_lit(lits: &mut Vec<Lit>, lit: Lit) -> Result<(), NoMemory>
    ensures { OnOk result (lits.new.items ≡ lits.old.items ++ lit ∷ []) }
{
    match lits.push(lit) {
        Ok(()) => Ok(()),
        Err(_) => Err(NoMemory),
    }
}

// Puts a number after the others.
fn put(list: &mut Vec<u32>, number: u32) -> Result<(), NoMemory>
    ensures { OnOk result (list.new.items ≡ list.old.items ++ number ∷ []) }
{
    match list.push(number) {
        Ok(()) => Ok(()),
        Err(_) => Err(NoMemory),
    }
}
