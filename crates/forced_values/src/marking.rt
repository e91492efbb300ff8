//! Which facts forced pairs tell.

ghost use Rattle.std.specs.Prelude.{◌≡◌, true, All, IfOk, map};
ghost use Rattle.posed_facts.specs.Facts.{FactIn, IsPosable};
ghost use Rattle.report_verify.specs.Right.{EachConsistent};
ghost use Rattle.search_logs.specs.SearchLogs.{IsWithin};
ghost use Rattle.decided_facts.specs.Steps.{AreMarked};
ghost use Rattle.spec_model.specs.Facts.{IsSpecification};
ghost use Rattle.forced_values.specs.Values.{grouping_of};

use crate::groups::group_rows;
use crate::values::is_claim_forced;
use currency_base::NoMemory;
use entity_lists::EntityLists;
use forced_closure::{Closure, close, forced_pairs_hold};
use posed_facts::Fact;
use spec_model::Specification;
use std::alloc::Global;

/// Marks the facts that forced pairs alone tell: that a value is the current one, where each other row of its entity has the
/// same value of the attribute, or is forced to stand before its row. Takes time in proportion to the closure of forced pairs,
/// and for each fact to the rows of its entity. Is refused for want of memory alone.
pub fn forced_facts(
    alloc: Global,
    spec: &Specification,
    facts: &[Fact],
) -> Result<Vec<bool>, NoMemory>
    requires within { IsWithin spec.now }
    requires facts { All (IsPosable spec.now.relations) facts.now }
    ensures { IfOk result (λ marks. AreMarked spec.now facts.now marks.items) }
{
    let closure = close(alloc, spec)?;
    let groups = group_rows(alloc, spec.relations())?;
    let mut marks = Vec::new(alloc);
    for fact in facts {
        marks.push(holds_by_force(spec, &closure, &groups, fact))?;
    }
    Ok(marks)
}

/// Is it a fact on a current value, and do forced pairs tell it?
fn holds_by_force(
    spec: &Specification,
    closure: &Closure<'_>,
    groups: &[EntityLists],
    fact: &Fact,
) -> bool
    requires spec { IsSpecification spec.now }
    requires closure { closure.now.spec ≡ spec.now }
    requires groups { groups.now ≡ map grouping_of spec.now.relations }
    requires fact { IsPosable spec.now.relations fact.now }
    ensures { result ≡ true → EachConsistent spec.now (FactIn spec.now.relations fact.now) }
{
    forced_pairs_hold();
    match fact {
        Fact::Current(claim) => is_claim_forced(spec, closure, groups, *claim),
        _ => false,
    }
}
