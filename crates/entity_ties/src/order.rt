ghost use Rattle.std.specs.Prelude.{◌≡◌, ◌<◌, ◌≤◌, ◌+◌, ◌^◌, All, None, length, replicate, IfOk};
ghost use Rattle.entity_ties.specs.Order.{AreInOrder, IsNamed};

use currency_base::NoMemory;
use std::alloc::Global;

/// Labels that count in the order in which they come first.
#[derive(Drop)]
pub(crate) struct Ordered {
    pub labels: Vec<u32>,
    /// How many labels there are.
    pub count: u32,
}

/// Labels the same alike by labels that count from 0 on, in the order in which they come first.
pub(crate) fn in_order(alloc: Global, labels: &[u32]) -> Result<Ordered, NoMemory>
    requires few { length labels.now < 2 ^ 32 }
    requires within { All (λ label. label < length labels.now) labels.now }
    ensures { IfOk result (λ ordered. AreInOrder labels.now ordered.labels.items ordered.count) }
{
    let mut names = Vec::new(alloc);
    names.resize(labels.len(), None)?;
    let mut ordered = Vec::with_capacity(alloc, labels.len())?;
    let mut count = 0;
    for label in labels {
        ordered.push(name_of(&mut names, &mut count, *label))?;
    }
    Ok(Ordered {
        labels: ordered,
        count,
    })
}

// The new label of a label, which is the next if it has none yet.
fn name_of(names: &mut Vec<Option<u32>>, count: &mut u32, label: u32) -> u32
    requires within { label < length names.old.items }
    requires few { count.old + 1 < 2 ^ 32 }
    ensures { IsNamed names.old.items names.new.items count.old count.new label result }
{
    if let Some(name) = names[label as usize] {
        return name;
    }
    let name = *count;
    names[label as usize] = Some(name);
    *count += 1;
    name
}
