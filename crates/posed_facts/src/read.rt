// What a claim on a current value speaks of.

ghost use Rattle.std.specs.Prelude.{◌≡◌, Some};
ghost use Rattle.posed_facts.specs.Facts.{IsPlaced};
ghost use Rattle.posed_facts.specs.Questions.{claim_attrs, claim_name, claim_row, claim_value};
ghost use Rattle.spec_model.specs.Facts.{AreRelations};

use currency_base::{Name, Row, Value};
use match_premises::Premise;
use spec_model::Specification;

/// The claim's row.
pub(crate) fn row_of<'a>(spec: &'a Specification, claim: Premise) -> &'a Row
    requires { IsPlaced spec.now.relations claim }
    ensures row { claim_row spec.now.relations claim ≡ Some result.now }
    ensures facts { AreRelations spec.now.relations }
{
    spec.relations()[claim.rel.0 as usize].rows.row(claim.row)
}

/// The row's value of the attribute.
pub(crate) fn value_of<'a>(spec: &'a Specification, claim: Premise) -> &'a Value
    requires { IsPlaced spec.now.relations claim }
    ensures { claim_value spec.now.relations claim ≡ Some result.now }
{
    row_of(spec, claim).values.get(claim.attr.0 as usize)
}

/// The name of the row's entity.
pub(crate) fn name_of<'a>(spec: &'a Specification, claim: Premise) -> &'a Name
    requires { IsPlaced spec.now.relations claim }
    ensures { claim_name spec.now.relations claim ≡ Some result.now }
{
    let entity = row_of(spec, claim).entity;
    let relation = &spec.relations()[claim.rel.0 as usize];
    relation.entities.get(entity.0 as usize)
}

/// How many attributes there are.
pub(crate) fn attrs_of(spec: &Specification, claim: Premise) -> usize
    requires { IsPlaced spec.now.relations claim }
    ensures { result ≡ claim_attrs spec.now.relations claim }
{
    spec.relations()[claim.rel.0 as usize].attrs.len()
}
