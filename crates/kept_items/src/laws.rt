ghost use Rattle.spec_model.specs.Facts.{IsSpecification};
ghost use Rattle.kept_items.specs.Laws.{AlikeAreOne};

use spec_model::Specification;

/// A law: specifications that are alike have the same consistent completions.
pub fn alike_are_one()
    ensures { AlikeAreOne }
{}

/// A law: what every specification keeps, as its parts say it.
pub(crate) fn is_specification(spec: &Specification)
    ensures { IsSpecification spec.now }
{
    let _ = spec.relations();
    let _ = spec.rules();
    let _ = spec.copies();
}
