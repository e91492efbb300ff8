// One rule, looked at alone.

ghost use Rattle.std.specs.Prelude.{◌≡◌, true, false, IfOk};
ghost use Rattle.denial_rules.specs.Rules.{IsRuleOn};
ghost use Rattle.spec_model.specs.Completion.{IsCompletion};
ghost use Rattle.spec_model.specs.Facts.{IsRelation, IsRuleOf, kinds_of};
ghost use Rattle.spec_model.specs.Satisfies.{SatisfiesRule};
ghost use Rattle.completion_check.specs.OneRule.{SatisfiesOne};
ghost use Rattle.completion_check.specs.Relations.{AreAllMarked, FitsRelation, IsRanked};
ghost use Rattle.completion_check.specs.Room.{HasPlaces};

use crate::broken::broken_rows;
use crate::relations::RelationPlaces;
use crate::scratch::places_of;
use currency_base::NoMemory;
use denial_rules::Rule;
use entity_rows::entity_rows;
use spec_model::{AttributeRankings, Completion, Relation, Specification};
use std::alloc::Global;

/// Does a completion satisfy a rule? Takes time in proportion to the rows of the rule's relation in all attributes, and to the
/// choices of rows of one entity up to the first predicate that fails.
pub fn satisfies_rule(
    alloc: Global,
    spec: &Specification,
    rule: &Rule,
    completion: &Completion,
) -> Result<bool, NoMemory>
    requires rule { IsRuleOf spec.now.relations rule.now }
    requires completion { IsCompletion spec.now.relations completion.now }
    ensures yes { IfOk result (λ held. held ≡ true → SatisfiesOne spec.now.relations completion.now rule.now) }
    ensures no { IfOk result (λ held. held ≡ false → SatisfiesOne spec.now.relations completion.now rule.now → ⊥) }
{
    let relation = &spec.relations()[rule.relation.0 as usize];
    let rankings = completion.relation(rule.relation).as_slice();
    holds_on(alloc, relation, rule, rankings)
}

// The same by the relation of the rule and its lists.
fn holds_on(
    alloc: Global,
    relation: &Relation,
    rule: &Rule,
    rankings: &[AttributeRankings],
) -> Result<bool, NoMemory>
    requires relation { IsRelation relation.now }
    requires rule { IsRuleOn (kinds_of relation.now) rule.now }
    requires shape { FitsRelation relation.now rankings.now }
    requires ranked { IsRanked relation.now rankings.now }
    ensures yes { IfOk result (λ held. held ≡ true → SatisfiesRule relation.now.rows rankings.now rule.now) }
    ensures no { IfOk result (λ held. held ≡ false → SatisfiesRule relation.now.rows rankings.now rule.now → ⊥) }
{
    let places = marked(alloc, relation, rankings)?;
    let members = entity_rows(alloc, relation)?;
    match broken_rows(alloc, rule, relation, &places, members.as_slice()) {
        Some(_) => Ok(false),
        None => Ok(true),
    }
}

// The places of a relation's rows in its lists, which are rankings.
fn marked(
    alloc: Global,
    relation: &Relation,
    rankings: &[AttributeRankings],
) -> Result<RelationPlaces, NoMemory>
    requires relation { IsRelation relation.now }
    requires shape { FitsRelation relation.now rankings.now }
    requires ranked { IsRanked relation.now rankings.now }
    ensures room { IfOk result (HasPlaces relation.now) }
    ensures marked { IfOk result (AreAllMarked relation.now rankings.now) }
{
    let mut places = places_of(alloc, relation)?;
    let _ = places.mark(relation, rankings);
    Ok(places)
}
