ghost use Rattle.std.specs.Prelude.{◌≡◌, ◌≢◌, ◌<◌, ◌≤◌, true, Contains, length, slice_index_or, IfOk};
ghost use Rattle.currency_base.specs.declared.lit.Lit.{Lit};
ghost use Rattle.last_rows.specs.Looks.{AreAlike, AreAmong, AreLasts, AreTops, AreUnits, IsShaped, ThreesAt, ThreesBelow, ThreesOf};
ghost use Rattle.last_rows.specs.Rows.{AreLaters, IsPlaced, IsThree, IsUnit, StandsAt, later_of, later_place_of, literals_of, three_of};
ghost use Rattle.refutation_log.specs.Steps.{clauses_of};

use crate::RowList;
use crate::derivation::{is_in, write_lits};
use currency_base::{Lit, NoMemory};
use refutation_log::Steps;
use std::alloc::Global;

// How many rows a list has at most of which anything is derived.
const MANY_ROWS: usize = 65536;

// How many steps have numbers.
const MANY_STEPS: usize = 4294967296;

/// Do the axioms on a list of rows stand at the places that are said, among these steps? Takes time as the axioms on three rows
/// are many.
pub fn are_there(alloc: Global, list: &RowList, earlier: &Steps) -> Result<bool, NoMemory>
    ensures { IfOk result (λ there. there ≡ true → IsPlaced list.now (clauses_of earlier.now)) }
{
    if !is_shaped(list) || earlier.len() > MANY_STEPS {
        return Ok(false);
    }
    let tops = are_tops(alloc, list, earlier)?;
    Ok(tops && are_lasts(list, earlier) && are_units(list, earlier) && are_threes(list, earlier))
}

// Is there as much said of each row?
fn is_shaped(list: &RowList) -> bool
    ensures { result ≡ true → IsShaped list.now }
{
    let count = list.tops.len();
    if count > MANY_ROWS
        || list.names.len() != count
        || list.befores.len() != count
        || list.top_places.len() != count
        || list.last_places.len() != count
        || list.thirds.len() != count
        || list.seconds.len() != count
        || list.numbers.len() != count
    {
        return false;
    }
    for row in 0..count {
        if list.befores.get(row).len() != count || list.numbers[row] as usize >= count {
            return false;
        }
    }
    are_laters(list)
}

// Are some rows kept, and is of each other one a row before it named?
fn are_laters(list: &RowList) -> bool
    ensures { result ≡ true → AreLaters list.now }
{
    let count = list.tops.len();
    if list.kept == 0
        || list.kept > count
        || list.laters.len() != count
        || list.later_places.len() != count
    {
        return false;
    }
    for row in list.kept..count {
        if list.later(row) >= row {
            return false;
        }
    }
    true
}

// Do the axioms `top` stand at their places?
fn are_tops(alloc: Global, list: &RowList, earlier: &Steps) -> Result<bool, NoMemory>
    requires { IsShaped list.now }
    ensures { IfOk result (λ there. there ≡ true → AreTops list.now (clauses_of earlier.now) (length list.now.tops.items)) }
{
    let mut lits = Vec::new(alloc);
    for row in 0..list.tops.len() {
        write_lits(list, list.count(), row, &mut lits)?;
        if !are_alike(earlier, list.top_place(row) as usize, lits.as_slice()) {
            return Ok(false);
        }
    }
    Ok(true)
}

// Do the axioms `last` stand at their places?
fn are_lasts(list: &RowList, earlier: &Steps) -> bool
    requires { IsShaped list.now }
    ensures { result ≡ true → AreLasts list.now (clauses_of earlier.now) (length list.now.tops.items) }
{
    for row in 0..list.tops.len() {
        let not_top = list.top(row).negated();
        let lits = [not_top, list.name(row)];
        if !are_among(earlier, list.last_place(row) as usize, &lits, not_top) {
            return false;
        }
    }
    true
}

// Do the steps that say of a row that one is after it stand at their places?
fn are_units(list: &RowList, earlier: &Steps) -> bool
    requires { IsShaped list.now }
    ensures { result ≡ true → AreUnits list.now (clauses_of earlier.now) (length list.now.tops.items) }
{
    for row in list.kept..list.tops.len() {
        if !is_unit(list, earlier, row) {
            return false;
        }
    }
    true
}

// Does the step that says of this row that one is after it stand at its place?
fn is_unit(list: &RowList, earlier: &Steps, row: usize) -> bool
    requires shaped { IsShaped list.now }
    requires kept { list.now.kept ≤ row }
    requires row { row < length list.now.tops.items }
    ensures { result ≡ true → StandsAt (IsUnit (literals_of list.now) row (later_of list.now row)) (clauses_of earlier.now)
        (later_place_of list.now row) }
{
    let lits = [list.before(row, list.later(row))];
    are_alike(earlier, list.later_place(row) as usize, &lits)
}

// Do the axioms on three rows stand at their places?
fn are_threes(list: &RowList, earlier: &Steps) -> bool
    requires { IsShaped list.now }
    ensures { result ≡ true → ThreesBelow list.now (clauses_of earlier.now) (length list.now.tops.items) }
{
    for third in 0..list.tops.len() {
        if !are_threes_of(list, earlier, third) {
            return false;
        }
    }
    true
}

// Those of which this row has the greatest number.
fn are_threes_of(list: &RowList, earlier: &Steps, third: usize) -> bool
    requires shaped { IsShaped list.now }
    requires third { third < length list.now.tops.items }
    ensures { result ≡ true → ThreesOf list.now (clauses_of earlier.now) third third }
{
    for second in 0..third {
        if !are_threes_at(list, earlier, second, third) {
            return false;
        }
    }
    true
}

// Those of which these are the last two.
fn are_threes_at(list: &RowList, earlier: &Steps, second: usize, third: usize) -> bool
    requires shaped { IsShaped list.now }
    requires third { third < length list.now.tops.items }
    requires second { second < third }
    ensures { result ≡ true → ThreesAt list.now (clauses_of earlier.now) second third third }
{
    for first in 0..third {
        if !is_three_or_two(list, earlier, first, second, third) {
            return false;
        }
    }
    true
}

// Does the axiom on three rows stand at its place? Where they are two there is none.
fn is_three_or_two(
    list: &RowList,
    earlier: &Steps,
    first: usize,
    second: usize,
    third: usize,
) -> bool
    requires shaped { IsShaped list.now }
    requires third { third < length list.now.tops.items }
    requires first { first < third }
    requires second { second < third }
    ensures { result ≡ true → first ≢ second → StandsAt (IsThree (literals_of list.now) first second third)
        (clauses_of earlier.now) (three_of list.now first second third) }
{
    if first == second {
        return true;
    }
    is_three(list, earlier, first, second, third)
}

// Does the axiom on three rows stand at its place?
fn is_three(list: &RowList, earlier: &Steps, first: usize, second: usize, third: usize) -> bool
    requires shaped { IsShaped list.now }
    requires third { third < length list.now.tops.items }
    requires first { first < third }
    requires second { second < third }
    ensures { result ≡ true → StandsAt (IsThree (literals_of list.now) first second third) (clauses_of earlier.now)
        (three_of list.now first second third) }
{
    let lits = [
        list.before(second, first),
        list.before(third, second),
        list.before(first, third),
    ];
    are_alike(earlier, list.three(first, second, third), &lits)
}

// Are the literals of the step at a place among these, and this one of them?
fn are_among(earlier: &Steps, place: usize, lits: &[Lit], one: Lit) -> bool
    ensures { result ≡ true → AreAmong (clauses_of earlier.now) place lits.now one }
{
    if place >= earlier.len() {
        return false;
    }
    let found = earlier.lits(place);
    is_in(found, one) && all_in(found, lits)
}

// Are the literals of the step at a place these?
fn are_alike(earlier: &Steps, place: usize, lits: &[Lit]) -> bool
    ensures { result ≡ true → AreAlike (clauses_of earlier.now) place lits.now }
{
    if place >= earlier.len() {
        return false;
    }
    let found = earlier.lits(place);
    all_in(lits, found) && all_in(found, lits)
}

// Is each of these literals among those?
fn all_in(lits: &[Lit], known: &[Lit]) -> bool
    ensures { result ≡ true → (lit : Lit) → Contains lits.now lit → Contains known.now lit }
{
    for lit in lits {
        if !is_in(known, *lit) {
            return false;
        }
    }
    true
}
