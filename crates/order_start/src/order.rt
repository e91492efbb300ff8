ghost use Rattle.std.specs.Prelude.{◌≡◌, ◌<◌, length, IfOk, IfSome, OnOk};
ghost use Rattle.order_start.specs.Lists.{AreOf};

use crate::listed::Listed;
use currency_base::NoMemory;
use std::alloc::Global;

/// The ranks of the rows of a list, as far as they have one. Rows get them from the first on, each when all those that
/// are known to stand before it have one; of several the first row.
#[derive(Drop)]
pub(crate) struct Order {
    /// By place, the rank of the row.
    pub ranks: Vec<Option<usize>>,
    /// By place, where the first row stands that may hold the row back: those before it have a rank, or are not known
    /// to stand before the row. So each pair is looked at once or twice.
    holders: Vec<usize>,
}

impl Order {
    /// No row.
    pub(crate) fn new(alloc: Global) -> Order {
        Order {
            ranks: Vec::new(alloc),
            holders: Vec::new(alloc),
        }
    }

    /// So many rows without a rank.
    fn begin(&mut self, rows: usize) -> Result<(), NoMemory>
        ensures { OnOk result (AreOf rows self.new.ranks.items self.new.holders.items) }
    {
        self.ranks.clear();
        self.holders.clear();
        self.ranks.resize(rows, None)?;
        self.holders.resize(rows, 0)?;
        Ok(())
    }

    /// Ranks the rows of a list, so that all known pairs stand as they must; the place of the last row, or `None` where
    /// the pairs go round (or there is no row).
    pub(crate) fn rank(&mut self, list: &Listed<'_>) -> Result<Option<usize>, NoMemory>
        ensures ranks { OnOk result (length self.new.ranks.items ≡ length list.now.rows) }
        ensures last { IfOk result (λ last. IfSome last (λ place. place < length list.now.rows)) }
    {
        self.begin(list.len())?;
        let mut last = None;
        for rank in 0..list.len() {
            let Some(place) = self.next(list) else {
                return Ok(None);
            };
            self.ranks[place] = Some(rank);
            last = Some(place);
        }
        Ok(last)
    }

    // The first row without a rank that no other such row holds back.
    fn next(&mut self, list: &Listed<'_>) -> Option<usize>
        requires { AreOf (length list.now.rows) self.old.ranks.items self.old.holders.items }
        ensures rows { AreOf (length list.now.rows) self.new.ranks.items self.new.holders.items }
        ensures place { IfSome result (λ place. place < length list.now.rows) }
    {
        for place in 0..list.len() {
            if self.ranks[place].is_none() && self.is_free(list, place) {
                return Some(place);
            }
        }
        None
    }

    // Is a row held back by none without a rank?
    fn is_free(&mut self, list: &Listed<'_>, place: usize) -> bool
        requires rows { AreOf (length list.now.rows) self.old.ranks.items self.old.holders.items }
        requires place { place < length list.now.rows }
        ensures { AreOf (length list.now.rows) self.new.ranks.items self.new.holders.items }
    {
        let holder = self.holder(list, place, self.holders[place]);
        self.holders[place] = holder;
        holder == list.len()
    }

    // From a place on, the first row without a rank that is known to stand before another one, or how many rows there
    // are.
    fn holder(&self, list: &Listed<'_>, place: usize, from: usize) -> usize
        requires rows { AreOf (length list.now.rows) self.now.ranks.items self.now.holders.items }
        requires place { place < length list.now.rows }
    {
        for other in from..list.len() {
            if other != place && self.ranks[other].is_none() && list.is_before(other, place) {
                return other;
            }
        }
        list.len()
    }
}
