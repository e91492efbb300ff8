ghost use Rattle.std.specs.Prelude.{◌≡◌, ◌<◌, ◌≤◌, length, slice_index_or};
ghost use Rattle.last_rows.specs.Rows.{IsSquare, later_of, later_place_of, lit_of, literals_of, number_of, three_at, three_of};

use currency_base::Lit;
use flat_lists::FlatLists;

/// The rows of a list in any order, those first of which no later one is known: the literals of what is said of them, and the
/// places of the axioms on them, and of what is known of them, among the steps of a log. A row is named by its place here, from
/// 0 on.
#[derive(Drop)]
pub struct RowList {
    /// For each row the literal that it stands last.
    pub tops: Vec<Lit>,
    /// For each row, for each other the literal that the one stands before the other; at the row itself any.
    pub befores: FlatLists<Lit>,
    /// For each row the literal that its value is current.
    pub names: Vec<Lit>,
    /// For each row the place of the axiom `top`.
    pub top_places: Vec<u32>,
    /// For each row the place of the axiom `last`.
    pub last_places: Vec<u32>,
    /// For each row its number among the rows in the order in which the axioms on three rows stand.
    pub numbers: Vec<u32>,
    /// For each number the place of the first axiom on three rows of which the row with that number has the greatest.
    pub thirds: Vec<u32>,
    /// For each number how many axioms on three rows stand between such a place and the first one of which the row with that
    /// number has the second greatest.
    pub seconds: Vec<u32>,
    /// How many rows come first, of which no later one is known.
    pub kept: usize,
    /// For each row behind these one that is known to stand after it, with a smaller place here than it; for the others any.
    pub laters: Vec<u32>,
    /// For each row behind these the place of the step whose clause is that it stands before that one; for the others any.
    pub later_places: Vec<u32>,
}

impl RowList {
    /// How many rows there are.
    pub(crate) fn count(&self) -> usize
        ensures { result ≡ length self.now.tops.items }
    {
        self.tops.len()
    }

    /// The literal that a row stands last.
    pub(crate) fn top(&self, row: usize) -> Lit
        requires { row < length self.now.tops.items }
        ensures { result ≡ (literals_of self.now).top row }
    {
        self.tops[row]
    }

    /// The literal that the value of a row is current.
    pub(crate) fn name(&self, row: usize) -> Lit
        requires square { IsSquare self.now }
        requires row { row < length self.now.tops.items }
        ensures { result ≡ (literals_of self.now).name row }
    {
        self.names[row]
    }

    /// The place of the axiom `top` of a row.
    pub(crate) fn top_place(&self, row: usize) -> u32
        requires { row < length self.now.top_places.items }
        ensures { result ≡ slice_index_or self.now.top_places.items row 0 }
    {
        self.top_places[row]
    }

    /// The place of the axiom `last` of a row.
    pub(crate) fn last_place(&self, row: usize) -> u32
        requires { row < length self.now.last_places.items }
        ensures { result ≡ slice_index_or self.now.last_places.items row 0 }
    {
        self.last_places[row]
    }

    /// The literal that a row stands before another.
    pub(crate) fn before(&self, row: usize, other: usize) -> Lit
        requires square { IsSquare self.now }
        requires row { row < length self.now.tops.items }
        requires other { other < length self.now.tops.items }
        ensures { result ≡ (literals_of self.now).before row other }
    {
        let others = self.befores.get(row);
        others[other]
    }

    /// The literal for a row in the clause that of the first rows, so many, one stands before this, or that this stands last,
    /// or one behind them.
    pub(crate) fn lit(&self, first: usize, own: usize, row: usize) -> Lit
        requires square { IsSquare self.now }
        requires own { own < length self.now.tops.items }
        requires row { row < length self.now.tops.items }
        ensures { result ≡ lit_of (literals_of self.now) first own row }
    {
        if row == own {
            self.tops[row]
        } else if row < first {
            self.before(own, row)
        } else {
            self.tops[row]
        }
    }

    /// The row that is known to stand after this.
    pub(crate) fn later(&self, row: usize) -> usize
        requires { row < length self.now.laters.items }
        ensures { result ≡ later_of self.now row }
    {
        self.laters[row] as usize
    }

    /// The place of the step that says that it does.
    pub(crate) fn later_place(&self, row: usize) -> u32
        requires { row < length self.now.later_places.items }
        ensures { result ≡ later_place_of self.now row }
    {
        self.later_places[row]
    }

    // The number of a row in the order in which the axioms on three rows stand.
    fn number(&self, row: usize) -> usize
        requires square { IsSquare self.now }
        requires row { row < length self.now.tops.items }
        ensures is { result ≡ number_of self.now row }
        ensures within { result < length self.now.tops.items }
    {
        self.numbers[row] as usize
    }

    /// The place of the axiom on three rows, which is the same from whichever of them on they are named.
    pub(crate) fn three(&self, first: usize, second: usize, third: usize) -> usize
        requires square { IsSquare self.now }
        requires few { length self.now.tops.items ≤ 65536 }
        requires first { first < length self.now.tops.items }
        requires second { second < length self.now.tops.items }
        requires third { third < length self.now.tops.items }
        ensures { result ≡ three_of self.now first second third }
    {
        let one = self.number(first);
        let two = self.number(second);
        let three = self.number(third);
        if one < three {
            if two < three {
                self.three_at(one, two, three)
            } else {
                self.three_at(three, one, two)
            }
        } else if two < one {
            self.three_at(two, three, one)
        } else {
            self.three_at(three, one, two)
        }
    }

    // The place of the axiom on three rows that have these numbers, of which the third is the greatest.
    fn three_at(&self, first: usize, second: usize, third: usize) -> usize
        requires square { IsSquare self.now }
        requires few { length self.now.tops.items ≤ 65536 }
        requires first { first < length self.now.tops.items }
        requires second { second < length self.now.tops.items }
        requires third { third < length self.now.tops.items }
        ensures { result ≡ three_at self.now first second third }
    {
        let base = self.thirds[third] as usize;
        if first < second {
            base + self.seconds[second] as usize + 2 * first
        } else {
            base + self.seconds[first] as usize + 2 * second + 1
        }
    }
}
