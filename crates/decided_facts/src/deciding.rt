ghost use Rattle.std.specs.Prelude.{◌<◌, All, IfOk, length};
ghost use Rattle.posed_facts.specs.Facts.{IsPosable};
ghost use Rattle.search_logs.specs.SearchLogs.{IsWithin};
ghost use Rattle.decided_facts.specs.Decided.{IsFactOutcome};
ghost use Rattle.decided_facts.specs.Steps.{AreMarked};
ghost use Rattle.spec_model.specs.Consistent.{IsConsistent};

use crate::near::decide_near;
use crate::rest::decide_rest;
use crate::shown::FactOutcome;
use crate::task::{Found, Task};
use currency_base::NoMemory;
use posed_facts::Fact;
use report_model::CompletionList;
use solver_guides::Guides;
use spec_model::Specification;
use std::alloc::Global;

/// Decides facts: shows of each that it holds in every consistent completion, or lists one in which it fails. Of some it is
/// known already that they hold. Some consistent completions are known; more are listed where they are needed, of which one
/// serves the facts of many parts. Each question that is put on the way has the budget of clauses that may be learned; the
/// first fact for which it is spent over the whole specification ends the search. The guides steer it, whatever they pick.
pub fn decide_facts(
    alloc: Global,
    spec: &Specification,
    facts: &[Fact],
    holds: Vec<bool>,
    known: CompletionList,
    budget: u64,
    guides: &mut Guides,
) -> Result<FactOutcome, NoMemory>
    requires within { IsWithin spec.now }
    requires facts { All (IsPosable spec.now.relations) facts.now }
    requires holds { AreMarked spec.now facts.now holds.items }
    requires known { All (IsConsistent spec.now) known }
    requires some { 0 < length known }
    ensures { IfOk result (IsFactOutcome spec.now facts.now budget) }
{
    let task = Task {
        spec,
        facts,
        budget,
        known: known.len(),
    };
    let mut found = Found {
        completions: known.into_items(),
        holds,
    };
    decide_near(alloc, &task, guides, &mut found)?;
    decide_rest(alloc, &task, found, guides)
}
