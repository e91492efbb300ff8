ghost use Rattle.spec_model.specs.Facts.{IsSpecification};

use spec_model::Specification;

/// A law: what every specification keeps, as its parts say it.
pub(crate) fn is_specification(spec: &Specification)
    ensures { IsSpecification spec.now }
{
    let _ = spec.relations();
    let _ = spec.rules();
    let _ = spec.copies();
}
