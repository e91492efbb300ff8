ghost use Rattle.std.specs.Prelude.{◌≡◌, true, All, IfOk, IfSome, option_map};
ghost use Rattle.std.specs.Bool.{OnTrue};
ghost use Rattle.query_plan.specs.Implied.{AreContrary, AreEqual, Follows, IsUnlike, side_at};

use crate::given::given;
use crate::standing::{Standing, joined, side};
use currency_base::{Cmp, NoMemory};
use query_model::{Test, TestTerm};
use std::alloc::Global;
use std::marker::Model;

/// How the sides of comparisons stand to each other wherever these hold. Contracts see the comparisons.
#[derive(Drop)]
pub(crate) struct Standings<'a> {
    tests: &'a [Test],
    sides: usize,
    // for each side how it stands to each, as far as it is known
    cells: Vec<Option<Standing>>,
}

impl<'a> Model for Standings<'a> {
    ghost use Rattle.std.specs.Prelude.{All, IfSome};
    ghost use Rattle.query_plan.specs.Implied.{Comparisons, Follows};

    ghost Value = { Comparisons };

    ghost view = { λ s. s.tests.now };

    ghost invariant = { λ s. All (λ c. IfSome c (Follows s.tests.now)) s.cells.items };
}

impl<'a> Standings<'a> {
    /// All that follows of the comparisons by going from side to side, in time in proportion to the third power of
    /// their number.
    pub(crate) fn new(alloc: Global, tests: &'a [Test]) -> Result<Standings<'a>, NoMemory>
        ensures { IfOk result (λ standings. standings ≡ tests.now) }
    {
        let sides = tests.len().saturating_mul(2);
        let cells = given_cells(alloc, tests, sides)?;
        let mut standings = Standings {
            tests,
            sides,
            cells,
        };
        close(&mut standings);
        Ok(standings)
    }

    /// How many sides there are.
    pub(crate) fn sides(&self) -> usize {
        self.sides
    }

    /// The side of a number.
    pub(crate) fn side(&self, number: usize) -> Option<&'a TestTerm>
        ensures { option_map (λ s. s.now) result ≡ side_at self.now number }
    {
        side(self.tests, number)
    }

    /// Have two sides one value?
    pub(crate) fn are_equal(&self, a: usize, b: usize) -> bool
        ensures { OnTrue result (AreEqual self.now a b) }
    {
        match (self.at(a, b), self.at(b, a)) {
            (Some(up), Some(down)) => are_opposite(up, down, a, b),
            _ => false,
        }
    }

    /// Is a side below itself, or unequal to one that has its value?
    pub(crate) fn is_contrary(&self) -> bool
        ensures { OnTrue result (AreContrary self.now) }
    {
        for number in 0..self.sides {
            if self.is_contrary_at(number) {
                return true;
            }
        }
        false
    }

    // Is this side below itself, or unequal to one that has its value?
    fn is_contrary_at(&self, number: usize) -> bool
        ensures { OnTrue result (AreContrary self.now) }
    {
        if let Some(standing) = self.at(number, number) {
            if is_below_itself(standing) {
                return true;
            }
        }
        self.is_unlike_equal(number, number.saturating_add(1))
    }

    // Are these the left and the right side of one comparison, which are to be unequal and have one value?
    fn is_unlike_equal(&self, left: usize, right: usize) -> bool
        ensures { OnTrue result (AreContrary self.now) }
    {
        are_unlike(self.tests, left, right) && self.are_equal(left, right)
    }

    // How a side stands to another, as far as it is known.
    fn at(&self, low: usize, high: usize) -> Option<Standing>
        ensures { IfSome result (Follows self.now) }
    {
        *self.cells.get(place_of(self.sides, low, high))?
    }

    // Keeps a standing that says more than what is known.
    fn keep(&mut self, standing: Standing)
        requires { Follows self.old standing }
        ensures { self.new ≡ self.old }
    {
        let place = place_of(self.sides, standing.low, standing.high);
        if place < self.cells.len() && says_more(standing, self.cells[place]) {
            self.cells[place] = Some(standing);
        }
    }
}

// Where the standing of a side to another is kept.
fn place_of(sides: usize, low: usize, high: usize) -> usize {
    low.saturating_mul(sides).saturating_add(high)
}

// How each side stands to each by one comparison, or as constants or one variable.
fn given_cells(
    alloc: Global,
    tests: &[Test],
    sides: usize,
) -> Result<Vec<Option<Standing>>, NoMemory>
    ensures { IfOk result (λ cells. All (λ c. IfSome c (Follows tests.now)) cells.items) }
{
    let mut cells = Vec::new(alloc);
    if sides == 0 {
        return Ok(cells);
    }
    for place in 0..sides.saturating_mul(sides) {
        cells.push(given(tests, place / sides, place % sides))?;
    }
    Ok(cells)
}

// Finds all that follows: after each round over a side all that goes by it and those before it is known.
fn close(standings: &mut Standings)
    ensures { standings.new ≡ standings.old }
{
    for by in 0..standings.sides() {
        close_over(standings, by);
    }
}

// Finds what follows by a side.
fn close_over(standings: &mut Standings, by: usize)
    ensures { standings.new ≡ standings.old }
{
    for low in 0..standings.sides() {
        close_from(standings, low, by);
    }
}

// Finds what follows of a side by another.
fn close_from(standings: &mut Standings, low: usize, by: usize)
    ensures { standings.new ≡ standings.old }
{
    for high in 0..standings.sides() {
        close_to(standings, low, by, high);
    }
}

// Finds what follows of a first and a last side by another.
fn close_to(standings: &mut Standings, low: usize, by: usize, high: usize)
    ensures { standings.new ≡ standings.old }
{
    if let Some(both) = between(standings, low, by, high) {
        standings.keep(both);
    }
}

// How a side stands to another by a third.
fn between(standings: &Standings, low: usize, by: usize, high: usize) -> Option<Standing>
    ensures { IfSome result (Follows standings.now) }
{
    let first = standings.at(low, by)?;
    let second = standings.at(by, high)?;
    joined(first, second)
}

// Says a standing more than what is known?
fn says_more(standing: Standing, known: Option<Standing>) -> bool {
    match known {
        Some(own) => standing.is_below && !own.is_below,
        None => true,
    }
}

// Is a side below itself?
fn is_below_itself(standing: Standing) -> bool
    ensures { result ≡ true → (standing.is_below ≡ true) × (standing.low ≡ standing.high) }
{
    standing.is_below && standing.low == standing.high
}

// Stands one of two sides so to the other, and the other so to it?
fn are_opposite(up: Standing, down: Standing, a: usize, b: usize) -> bool
    ensures { result ≡ true → (up.low ≡ a) × (up.high ≡ b) × (down.low ≡ b) × (down.high ≡ a) }
{
    up.low == a && up.high == b && down.low == b && down.high == a
}

// Are these the left and the right side of a comparison by which they are unequal?
fn are_unlike(tests: &[Test], left: usize, right: usize) -> bool
    ensures { OnTrue result (IsUnlike tests.now left right) }
{
    let Some(test) = tests.get(left / 2) else {
        return false;
    };
    left % 2 == 0 && right % 2 != 0 && left / 2 == right / 2 && test.cmp == Cmp::Ne
}
