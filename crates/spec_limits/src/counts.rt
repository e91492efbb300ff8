// Counting the rows of each entity.

ghost use Rattle.std.specs.Prelude.{◌≡◌, ◌+◌, ◌<◌, length, replicate, slice_index, slice_set, All, IfOk};
ghost use Rattle.spec_limits.specs.Limits.{is_crowded, entity_pairs};

use currency_base::{EntId, NoMemory, Row};
use std::alloc::Global;
use std::marker::Model;

/// How many rows of a relation may be of one entity.
const MOST_OF_ONE: u32 = 64;

/// How many rows of each entity there were so far. Contracts see the list of these counts.
#[derive(Drop)]
struct Tally {
    counts: Vec<u32>,
}

impl Model for Tally {
    ghost use Rattle.std.specs.Prelude.{List, ℕ};

    ghost Value = { List ℕ };

    ghost view = { λ t. t.counts.items };
}

impl Tally {
    /// No rows of so many entities.
    fn new(alloc: Global, entities: usize) -> Result<Tally, NoMemory>
        ensures { IfOk result (λ tally. tally ≡ replicate entities 0) }
    {
        Ok(Tally {
            counts: vec![in alloc; 0; entities]?,
        })
    }

    /// Counts one more row of an entity. Answers how many there were before.
    fn count(&mut self, ent: EntId) -> u32
        requires within { ent.0 < length self.old }
        requires few { slice_index self.old ent.0 < 4294967295 }
        ensures before { result ≡ slice_index self.old ent.0 }
        ensures counted { self.new ≡ slice_set self.old ent.0 (result + 1) }
    {
        let before = self.counts[ent.0 as usize];
        self.counts[ent.0 as usize] = before + 1;
        before
    }
}

/// Are more rows of one entity than may be?
pub fn is_crowded(alloc: Global, rows: &[Row], entities: usize) -> Result<bool, NoMemory>
    requires entities { All (λ row. row.entity.0 < entities) rows.now }
    requires few { length rows.now < 4294967295 }
    ensures { IfOk result (λ crowded. crowded ≡ is_crowded rows.now) }
{
    let mut tally = Tally::new(alloc, entities)?;
    for row in rows {
        let before = tally.count(row.entity);
        if before >= MOST_OF_ONE {
            return Ok(true);
        }
    }
    Ok(false)
}

/// How many pairs of rows of one entity there are.
pub fn entity_pairs(alloc: Global, rows: &[Row], entities: usize) -> Result<u64, NoMemory>
    requires entities { All (λ row. row.entity.0 < entities) rows.now }
    requires few { length rows.now < 4294967295 }
    ensures { IfOk result (λ pairs. pairs ≡ entity_pairs rows.now) }
{
    let mut tally = Tally::new(alloc, entities)?;
    let mut pairs: u64 = 0;
    for row in rows {
        let before = tally.count(row.entity);
        pairs += u64::from(before);
    }
    Ok(pairs)
}
