ghost use Rattle.std.specs.Prelude.{IfOk};
ghost use Rattle.completion_build.specs.Judged.{IsJudged};

use crate::Cycle;
use crate::counts::counts_of;
use crate::cycle::find_cycle;
use crate::order::ordered;
use crate::tournament::Tournament;
use currency_base::{EntId, NoMemory, RowList};
use std::alloc::Global;

/// What is found of a list.
#[derive(Drop)]
pub enum Judged {
    /// Its order.
    Ordered(RowList),
    /// Three rows that form a cycle.
    Round(Cycle),
}

/// The order of a list, or a cycle of it.
pub(crate) fn judge(
    alloc: Global,
    tournament: &Tournament<'_>,
    ent: EntId,
) -> Result<Judged, NoMemory>
    ensures { IfOk result (IsJudged tournament.now ent.0) }
{
    let counts = counts_of(alloc, tournament)?;
    let counts = counts.as_slice();
    if let Some(cycle) = find_cycle(tournament, counts, ent) {
        return Ok(Judged::Round(cycle));
    }
    let rows = ordered(alloc, tournament, counts)?;
    Ok(Judged::Ordered(rows))
}
