ghost use Rattle.std.specs.Prelude.{IfOk};
ghost use Rattle.search_logs.specs.SearchLogs.{IsWithin};
ghost use Rattle.part_conflicts.specs.Steps.{IsPartDecided};

use crate::found::{Conflict, ConflictList, Found};
use core_explain::{Explained, explain};
use currency_base::NoMemory;
use solver_guides::Guides;
use spec_model::{Question, Specification};
use std::alloc::Global;

/// Decides a part by itself: lists it with what explains that it is inconsistent, if it is; or answers what the budget
/// was spent on.
pub(crate) fn decide_alone(
    alloc: Global,
    part: Specification,
    budget: u64,
    guides: &mut Guides,
    found: &mut ConflictList,
) -> Result<Option<Found>, NoMemory>
    requires within { IsWithin part }
    ensures { IfOk result (IsPartDecided part budget found.old found.new) }
{
    match explain(alloc, &part, &Question::Consistent, 0, budget, guides) {
        Ok(Explained::Inconsistent(needed)) => {
            found.push(Conflict { part, needed })?;
            Ok(None)
        }
        Ok(Explained::Unit(_)) => unreachable!(),
        Ok(Explained::NoUnit(_)) => Ok(None),
        Ok(Explained::TooMany(_)) => unreachable!(),
        Ok(Explained::Undecided(report)) => Ok(Some(Found::Undecided { part, report })),
        Ok(Explained::Open(spent)) => Ok(Some(Found::Open { part, spent })),
        Err(NoMemory) => Err(NoMemory),
    }
}
