//! Claims on current values: of which place they are, and what a completion has there.

ghost use Rattle.std.specs.Prelude.{◌≡◌, true, IfSome, Some, slice_get};
ghost use Rattle.posed_facts.specs.Facts.{FactIn, IsPlaced, IsPosable};
ghost use Rattle.report_verify.specs.Right.{EachConsistent};
ghost use Rattle.decided_facts.specs.Claims.{AreOfOnePlace, Denies, IsOfEntity};
ghost use Rattle.decided_facts.specs.Steps.{IsCertain};
ghost use Rattle.spec_model.specs.Completion.{IsCompletion};
ghost use Rattle.spec_model.specs.Consistent.{IsConsistent};

use crate::task::Round;
use currency_base::{EntId, RelId, Row, RowId};
use current_tuples::last_row;
use match_premises::Premise;
use posed_facts::{Fact, holds_in};
use spec_model::{Completion, Relation, Specification};

/// The claim that a fact denies, if it denies just one.
pub(crate) fn denied(fact: &Fact) -> Option<Premise>
    ensures { Denies fact.now result }
{
    match fact {
        Fact::Lacks(claims) => {
            if claims.len() == 1 {
                Some(*claims.get(0))
            } else {
                None
            }
        }
        _ => None,
    }
}

/// The claim that the value which a completion has at a claim's place is the current one.
pub(crate) fn current_claim(
    spec: &Specification,
    claim: Premise,
    completion: &Completion,
) -> Premise
    requires claim { IsPlaced spec.now.relations claim }
    requires completion { IsCompletion spec.now.relations completion.now }
    ensures { IsPlaced spec.now.relations result }
{
    let rows = &spec.relations()[claim.rel.0 as usize].rows;
    let entity = rows.row(claim.row).entity;
    Premise {
        rel: claim.rel,
        attr: claim.attr,
        row: last_row(spec, completion, claim.rel, claim.attr, entity),
    }
}

/// Are two claims of one place?
pub(crate) fn are_of_one_place(spec: &Specification, one: Premise, other: Premise) -> bool
    ensures { result ≡ true → AreOfOnePlace spec.now.relations one other }
{
    if one.rel != other.rel || one.attr != other.attr {
        return false;
    }
    match (entity_of(spec, one), entity_of(spec, other)) {
        (Some(ent), Some(same)) => ent == same,
        _ => false,
    }
}

/// The entity of a claim, if it is there.
fn entity_of(spec: &Specification, claim: Premise) -> Option<EntId>
    ensures { IfSome result (IsOfEntity spec.now.relations claim) }
{
    let relation = relation_at(spec.relations(), claim.rel)?;
    let row = row_at(relation.rows.as_slice(), claim.row)?;
    Some(row.entity)
}

/// The relation of an id, if it is there.
fn relation_at(relations: &[Relation], rel: RelId) -> Option<&Relation>
    ensures { IfSome result (λ r. slice_get relations.now rel.0 ≡ Some r.now) }
{
    relations.get(rel.0 as usize)
}

/// The row of an id, if it is there.
fn row_at(rows: &[Row], row: RowId) -> Option<&Row>
    ensures { IfSome result (λ one. slice_get rows.now row.0 ≡ Some one.now) }
{
    rows.get(row.0 as usize)
}

/// Is a fact told by the claim that was tried last? It is, where it denies another value of a place of which that claim is
/// certain; and it does so, where it holds in a consistent completion.
pub(crate) fn follows_from_claim(
    spec: &Specification,
    fact: &Fact,
    round: &Round,
    first: &Completion,
) -> bool
    requires fact { IsPosable spec.now.relations fact.now }
    requires certain { IsCertain spec.now round.now.claim round.now.certain }
    requires first { IsConsistent spec.now first.now }
    ensures { result ≡ true → EachConsistent spec.now (FactIn spec.now.relations fact.now) }
{
    match (denied(fact), round.claim) {
        (Some(one), Some(claim)) => {
            round.certain && are_of_one_place(spec, one, claim) && holds_in(spec, fact, first)
        }
        _ => false,
    }
}
