ghost use Rattle.currency_base.specs.Lists.{OnlyOnce};
ghost use Rattle.spec_items.specs.Items.{items_of};
ghost use Rattle.spec_model.specs.Facts.{IsSpecification};
ghost use Rattle.minimal_items.specs.Trials.{Ascends};

use spec_model::{Relation, Specification};

/// A law: what every specification keeps, as its parts say it.
pub(crate) fn is_specification(spec: &Specification)
    ensures { IsSpecification spec.now }
{
    let _ = spec.relations();
    let _ = spec.rules();
    let _ = spec.copies();
}

/// A law: no item of a specification stands twice among its items.
pub(crate) fn items_stand_once(spec: &Specification)
    ensures { OnlyOnce (items_of spec.now) }
{
    for relation in spec.relations() {
        given_ascend(relation);
    }
}

/// A law: the given pairs of a relation ascend.
fn given_ascend(relation: &Relation)
    ensures { Ascends relation.now }
{
    let _ = relation.given.iter();
}
