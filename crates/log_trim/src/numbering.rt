ghost use Rattle.std.specs.Prelude.{◌≡◌, ◌+◌, ◌<◌, ◌≤◌, ◌^◌, length, IfOk, if◌then◌else◌};
ghost use Rattle.log_trim.specs.Trimmed.{rank};
ghost use Rattle.log_trim.specs.Marked.{is_marked, AreRanks};

use crate::marks::Marks;
use currency_base::NoMemory;
use std::alloc::Global;
use std::marker::Model;

/// Which places are kept, and their new numbers. Contracts see the marks of those that are kept.
#[derive(Drop)]
pub struct Numbering {
    marks: Marks,
    ranks: Vec<u32>,
}

impl Model for Numbering {
    ghost use Rattle.std.specs.Prelude.{List, Bool};
    ghost use Rattle.log_trim.specs.Marked.{AreRanks};

    ghost Value = { List Bool };

    ghost view = { λ n. n.marks };

    ghost invariant = { λ n. AreRanks n.marks n.ranks.items };
}

impl Numbering {
    /// The numbering that keeps the places that are marked.
    pub fn new(alloc: Global, marks: Marks) -> Result<Numbering, NoMemory>
        requires { length marks < 2 ^ 32 }
        ensures { IfOk result (λ numbering. numbering ≡ marks) }
    {
        let ranks = ranks_of(alloc, &marks)?;
        Ok(Numbering { marks, ranks })
    }

    /// The marks of the places that are kept.
    pub fn marks(&self) -> &Marks
        ensures { result.now ≡ self.now }
    {
        &self.marks
    }

    /// Is the place kept?
    pub fn is_kept(&self, place: usize) -> bool
        requires { place < length self.now }
        ensures { result ≡ is_marked self.now place }
    {
        self.marks.is_marked(place)
    }

    /// How many places below a place are kept; of one that is kept, its new number.
    pub fn rank(&self, place: usize) -> u32
        requires { place < length self.now }
        ensures { result ≡ rank (is_marked self.now) place }
    {
        self.ranks[place]
    }
}

// The rank of each place.
fn ranks_of(alloc: Global, marks: &Marks) -> Result<Vec<u32>, NoMemory>
    requires { length marks.now < 2 ^ 32 }
    ensures { IfOk result (λ ranks. AreRanks marks.now ranks.items) }
{
    let mut ranks = Vec::new(alloc);
    let mut count = 0;
    for place in 0..marks.len() {
        ranks.push(count)?;
        count += unit(marks.is_marked(place));
    }
    Ok(ranks)
}

// One where it is so, and otherwise none.
fn unit(told: bool) -> u32
    ensures value { result ≡ (if told then 1 else 0) }
    ensures few { result ≤ 1 }
{
    u32::from(told)
}
