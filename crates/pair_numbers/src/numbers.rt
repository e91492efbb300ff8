ghost use Rattle.std.specs.Prelude.{◌≡◌, ◌<◌, ◌+◌, ◌^◌, Some, length, slice_get, IfOk};
ghost use Rattle.pair_numbers.specs.Pairs.{pairs_of};
ghost use Rattle.pair_numbers.specs.Starts.{left_from};

use crate::RowPair;
use currency_base::{NoMemory, RowId};
use entity_lists::EntityLists;
use flat_lists::last_up_to;
use std::alloc::Global;
use std::marker::Model;

/// The pairs of different rows of one entity of a relation, each once with the lesser row first, numbered
/// by the first row and then by the second. Contracts see how many entities there are, and the entity of
/// each row. Beside the entities' lists a row takes four bytes, and a pair none.
#[derive(Drop)]
pub struct PairNumbers {
    lists: EntityLists,
    // of each row, how many pairs have a lesser first row
    starts: Vec<u32>,
    total: u32,
}

impl Model for PairNumbers {
    ghost use Rattle.entity_lists.specs.Lists.{Grouping};
    ghost use Rattle.pair_numbers.specs.Starts.{AreStarts};

    ghost Value = { Grouping };

    ghost view = { λ p. p.lists };

    ghost invariant = { λ p. AreStarts p.lists.entities p.starts.items p.total };
}

impl PairNumbers {
    /// Numbers the pairs of rows of these entities. Takes time in proportion to the rows.
    pub fn new(alloc: Global, lists: EntityLists) -> Result<PairNumbers, NoMemory>
        requires { length (pairs_of lists.entities) < 2 ^ 32 }
        ensures { IfOk result (λ pairs. pairs ≡ lists) }
    {
        let mut starts = Vec::new(alloc);
        let mut total = 0;
        for at in 0..lists.rows() {
            starts.push(total)?;
            total += laters(&lists, RowId(at as u32));
        }
        Ok(PairNumbers {
            lists,
            starts,
            total,
        })
    }

    /// The rows of each entity.
    pub fn lists(&self) -> &EntityLists
        ensures { result.now ≡ self.now }
    {
        &self.lists
    }

    /// How many pairs there are.
    pub fn len(&self) -> u32
        ensures { result ≡ length (pairs_of self.now.entities) }
    {
        self.total
    }

    /// The number of a pair of rows of one entity, of which the first has the lesser number. Takes constant
    /// time and no memory.
    pub fn number(&self, earlier: RowId, later: RowId) -> u32
        requires order { earlier.0 < later.0 }
        requires within { later.0 < length self.now.entities }
        requires one_entity { slice_get self.now.entities earlier.0 ≡ slice_get self.now.entities later.0 }
        ensures pair { slice_get (pairs_of self.now.entities) result ≡ Some (record { earlier = earlier; later = later }) }
        ensures within { result < length (pairs_of self.now.entities) }
    {
        let start = self.starts[earlier.0 as usize];
        let steps = self.lists.place(later) - self.lists.place(earlier);
        start + (steps - 1) as u32
    }

    /// The pair of a number. Takes logarithmic time and no memory.
    pub fn pair(&self, number: u32) -> RowPair
        requires { number < length (pairs_of self.now.entities) }
        ensures { slice_get (pairs_of self.now.entities) number ≡ Some result }
    {
        let at = last_up_to(&self.starts, number);
        let earlier = RowId(at as u32);
        let rows = self.lists.of_entity(self.lists.entity(earlier));
        let between = (number - self.starts[at]) as usize;
        let later = rows[self.lists.place(earlier) + 1 + between];
        RowPair { earlier, later }
    }
}

// How many later rows the entity of a row has.
#[tactic(auto, using(crate::proofs::Blocks::left_more, crate::proofs::LaterRows::rows_few))]
fn laters(lists: &EntityLists, row: RowId) -> u32
    requires within { row.0 < length lists.now.entities }
    requires few { length lists.now.entities < 2 ^ 32 }
    ensures { result + left_from lists.now.entities (row.0 + 1) ≡ left_from lists.now.entities row.0 }
{
    let rows = lists.of_entity(lists.entity(row));
    (rows.len() - lists.place(row) - 1) as u32
}
