// Which relations are asked about.

ghost use Rattle.std.specs.Prelude.{◌≡◌, ◌<◌, All, IfOk, false, replicate};
ghost use Rattle.value_candidates.specs.Steps.{AreMarks};

use currency_base::{NoMemory, RelId};
use std::alloc::Global;

/// For each of so many relations whether it is among these.
pub(crate) fn asked_marks(
    alloc: Global,
    count: usize,
    rels: &[RelId],
) -> Result<Vec<bool>, NoMemory>
    requires { All (λ rel. rel.0 < count) rels.now }
    ensures { IfOk result (λ marks. AreMarks rels.now count marks.items) }
{
    let mut marks = no_marks(alloc, count)?;
    for rel in rels {
        marks[rel.0 as usize] = true;
    }
    Ok(marks)
}

/// So many marks, none of which is set.
fn no_marks(alloc: Global, count: usize) -> Result<Vec<bool>, NoMemory>
    ensures { IfOk result (λ marks. marks.items ≡ replicate count false) }
{
    let mut marks = Vec::new(alloc);
    marks.resize(count, false)?;
    Ok(marks)
}
