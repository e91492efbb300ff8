ghost use Rattle.std.specs.Prelude.{◌≡◌, ◌<◌, ◌^◌, length, IfOk};
ghost use Rattle.pair_numbers.specs.Pairs.{pairs_of};
ghost use Rattle.order_literals.specs.Held.{grouping_of, IsPaired};

use currency_base::NoMemory;
use entity_lists::EntityLists;
use pair_numbers::PairNumbers;
use std::alloc::Global;

/// The rows of a relation. Where it has no attribute nothing is said of its pairs of rows, so that these,
/// which may be too many to be numbered, are not.
#[derive(Drop)]
pub(crate) enum TableRows {
    Paired(PairNumbers),
    Plain(EntityLists),
}

impl TableRows {
    /// The rows of a relation with so many attributes.
    pub(crate) fn new(alloc: Global, lists: EntityLists, attrs: u32) -> Result<TableRows, NoMemory>
        requires { 0 < attrs → length (pairs_of lists.entities) < 2 ^ 32 }
        ensures rows { IfOk result (λ rows. grouping_of rows ≡ lists) }
        ensures paired { IfOk result (λ rows. 0 < attrs → IsPaired rows) }
    {
        if attrs == 0 {
            return Ok(TableRows::Plain(lists));
        }
        match PairNumbers::new(alloc, lists) {
            Ok(pairs) => Ok(TableRows::Paired(pairs)),
            Err(fault) => Err(fault),
        }
    }

    /// The rows of each entity.
    pub(crate) fn lists(&self) -> &EntityLists
        ensures { result.now ≡ grouping_of self.now }
    {
        match self {
            TableRows::Paired(pairs) => pairs.lists(),
            TableRows::Plain(lists) => lists,
        }
    }

    /// The numbers of the pairs of rows.
    pub(crate) fn pairs(&self) -> &PairNumbers
        requires { IsPaired self.now }
        ensures { result.now ≡ grouping_of self.now }
    {
        match self {
            TableRows::Paired(pairs) => pairs,
            TableRows::Plain(_) => unreachable!(),
        }
    }
}
