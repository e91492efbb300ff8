// What a claim on a current value speaks of.

ghost use Rattle.std.specs.Prelude.{◌≡◌, ◌<◌, Some, slice_get};
ghost use Rattle.posed_facts.specs.Facts.{IsPlaced};
ghost use Rattle.posed_facts.specs.Questions.{claim_attrs, claim_name, claim_row, claim_value};
ghost use Rattle.spec_model.specs.Facts.{AreRelations};

use currency_base::{Name, Row, Value};
use match_premises::Premise;
use spec_model::{Relation, Specification};

/// The claim's relation.
pub(crate) fn relation_of<'a>(spec: &'a Specification, claim: Premise) -> &'a Relation
    requires { IsPlaced spec.now.relations claim }
    ensures relation { slice_get spec.now.relations claim.rel.0 ≡ Some result.now }
    ensures facts { AreRelations spec.now.relations }
{
    &spec.relations()[claim.rel.0 as usize]
}

/// The claim's row.
fn row_of<'a>(spec: &'a Specification, claim: Premise) -> &'a Row
    requires { IsPlaced spec.now.relations claim }
    ensures row { claim_row spec.now.relations claim ≡ Some result.now }
    ensures facts { AreRelations spec.now.relations }
{
    relation_of(spec, claim).rows.row(claim.row)
}

/// The claimed row's value of the attribute.
pub fn value_of<'a>(spec: &'a Specification, claim: Premise) -> &'a Value
    requires { IsPlaced spec.now.relations claim }
    ensures { claim_value spec.now.relations claim ≡ Some result.now }
{
    row_of(spec, claim).values.get(claim.attr.0 as usize)
}

/// The name of the claimed row's entity.
pub fn name_of<'a>(spec: &'a Specification, claim: Premise) -> &'a Name
    requires { IsPlaced spec.now.relations claim }
    ensures { claim_name spec.now.relations claim ≡ Some result.now }
{
    let entity = row_of(spec, claim).entity;
    relation_of(spec, claim).entities.get(entity.0 as usize)
}

/// How many attributes there are.
pub(crate) fn attrs_of(spec: &Specification, claim: Premise) -> usize
    requires { IsPlaced spec.now.relations claim }
    ensures count { result ≡ claim_attrs spec.now.relations claim }
    ensures below { claim.attr.0 < result }
{
    relation_of(spec, claim).attrs.len()
}
