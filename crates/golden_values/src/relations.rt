ghost use Rattle.std.specs.Prelude.{◌≡◌, ◌<◌, Some, length, slice_get};
ghost use Rattle.spec_model.specs.Facts.{IsRelation};

use currency_base::RelId;
use spec_model::{Relation, Specification};

/// The relation of an id.
pub(crate) fn relation_at(spec: &Specification, rel: RelId) -> &Relation
    requires { rel.0 < length spec.now.relations }
    ensures is { slice_get spec.now.relations rel.0 ≡ Some result.now }
    ensures facts { IsRelation result.now }
{
    &spec.relations()[rel.0 as usize]
}
