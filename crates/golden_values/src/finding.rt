ghost use Rattle.std.specs.Prelude.{◌<◌, ℕ, IfOk, length};
ghost use Rattle.search_logs.specs.SearchLogs.{IsWithin};
ghost use Rattle.decided_facts.specs.Steps.{AreMarked};
ghost use Rattle.spec_model.specs.Consistent.{IsConsistent};
ghost use Rattle.golden_values.specs.Golden.{IsGolden};
ghost use Rattle.golden_values.specs.Steps.{AreClaimsShown, IsKnown};

use crate::facts::facts_of;
use crate::field::{Golden, Posed};
use crate::records::{Fields, table_of};
use currency_base::{NoMemory, RelId};
use decided_facts::{FactOutcome, Shown, decide_facts};
use fact_trials::{Trial, try_fact};
use forced_values::forced_facts;
use posed_facts::Fact;
use report_model::CompletionList;
use solver_guides::Guides;
use spec_model::{Completion, Question, Specification};
use std::alloc::Global;

/// The golden records of a relation: for each entity and attribute the value that is current in every consistent completion, or
/// that two are possible. Of the values of the completion that is found first those are known at once that forced pairs tell, and
/// each other is decided by itself. Each question that is put on the way has the budget of clauses that may be learned. The
/// guides steer the search, whatever they pick.
pub fn golden(
    alloc: Global,
    spec: &Specification,
    rel: RelId,
    budget: u64,
    guides: &mut Guides,
) -> Result<Golden, NoMemory>
    requires within { IsWithin spec.now }
    requires rel { rel.0 < length spec.now.relations }
    ensures { IfOk result (IsGolden spec.now rel.0 budget) }
{
    match try_fact(alloc, spec, &Question::Consistent, budget, guides) {
        Ok(Trial::Holds) => Ok(Golden::Inconsistent),
        Ok(Trial::Fails(completion)) => {
            of_completion(alloc, spec, rel, completion, budget, guides)
        }
        Ok(Trial::Open(report)) => Ok(Golden::Undecided {
            posed: Posed::Consistent,
            report,
        }),
        Err(NoMemory) => Err(NoMemory),
    }
}

/// The same by a consistent completion.
fn of_completion(
    alloc: Global,
    spec: &Specification,
    rel: RelId,
    completion: Completion,
    budget: u64,
    guides: &mut Guides,
) -> Result<Golden, NoMemory>
    requires within { IsWithin spec.now }
    requires rel { rel.0 < length spec.now.relations }
    requires consistent { IsConsistent spec.now completion }
    ensures { IfOk result (IsGolden spec.now rel.0 budget) }
{
    let facts = facts_of(alloc, spec, rel, &completion)?;
    let holds = forced_facts(alloc, spec, &facts)?;
    let mut known = CompletionList::new(alloc);
    known.push(completion)?;
    of_facts(alloc, spec, rel, facts, holds, known, budget, guides)
}

/// The same by the facts that the values of a known completion are current, of which some are known to hold.
fn of_facts(
    alloc: Global,
    spec: &Specification,
    rel: RelId,
    facts: Vec<Fact>,
    holds: Vec<bool>,
    known: CompletionList,
    budget: u64,
    guides: &mut Guides,
) -> Result<Golden, NoMemory>
    requires within { IsWithin spec.now }
    requires rel { rel.0 < length spec.now.relations }
    requires known { IsKnown spec.now rel.0 facts.items known }
    requires holds { AreMarked spec.now facts.items holds.items }
    ensures { IfOk result (IsGolden spec.now rel.0 budget) }
{
    let mut facts = facts;
    match decide_facts(alloc, spec, &facts, holds, known, budget, guides) {
        Ok(FactOutcome::All { shown, .. }) => golden_of(alloc, spec, rel, &facts, shown.as_slice()),
        Ok(FactOutcome::Open { place, report }) => {
            let posed = Posed::Fact(facts.remove(place));
            Ok(Golden::Undecided { posed, report })
        }
        Err(NoMemory) => Err(NoMemory),
    }
}

/// The fields, where the facts for them are shown.
fn golden_of(
    alloc: Global,
    spec: &Specification,
    rel: RelId,
    facts: &[Fact],
    shown: &[Shown],
) -> Result<Golden, NoMemory>
    requires rel { rel.0 < length spec.now.relations }
    requires shown { AreClaimsShown spec.now rel.0 facts.now shown.now }
    ensures { (budget : ℕ) → IfOk result (IsGolden spec.now rel.0 budget) }
{
    let fields = Fields {
        spec,
        rel,
        facts,
        shown,
    };
    Ok(Golden::Records(table_of(alloc, &fields)?))
}
