// Looks at two rows.

ghost use Rattle.std.specs.Prelude.{◌≡◌, true, false, IfSome, slice_get};
ghost use Rattle.spec_edits.specs.Edits.{IsPairAt};
ghost use Rattle.spec_limits.specs.Instances.{are_of_one_entity};
ghost use Rattle.spec_model.specs.Completion.{Before, IsCompletion, lists_of};
ghost use Rattle.spec_model.specs.Questions.{IsAskedPair};

use currency_base::{Pair, RelId};
use ranked_pairs::pair_holds;
use spec_limits::are_of_one_entity;
use spec_model::{Asked, Completion, Specification};

/// Does the earlier row of a pair stand before the later in a completion? Takes no memory, and time in proportion to the rows
/// of their entity.
pub(crate) fn stands_before(spec: &Specification, completion: &Completion, asked: Asked) -> bool
    requires pair { IsPairAt spec.now.relations asked.rel.0 asked.pair }
    requires completion { IsCompletion spec.now.relations completion.now }
    ensures yes { result ≡ true → Before (lists_of completion.now asked.rel.0 asked.pair.attr.0) asked.pair.earlier
        asked.pair.later }
    ensures no { result ≡ false → Before (lists_of completion.now asked.rel.0 asked.pair.attr.0) asked.pair.earlier
        asked.pair.later → ⊥ }
{
    if !can_be_asked(spec, asked.rel, asked.pair) {
        return false;
    }
    pair_holds(spec, completion, asked)
}

/// Can a pair be asked about?
pub(crate) fn can_be_asked(spec: &Specification, rel: RelId, pair: Pair) -> bool
    requires { IsPairAt spec.now.relations rel.0 pair }
    ensures yes { result ≡ true → IsAskedPair spec.now.relations (record { rel = rel; pair = pair }) }
    ensures no { result ≡ false → IsAskedPair spec.now.relations (record { rel = rel; pair = pair }) → ⊥ }
{
    is_of_one_entity(spec, rel, pair)
}

/// Are the rows of a pair two different rows of one entity of this relation?
fn is_of_one_entity(spec: &Specification, rel: RelId, pair: Pair) -> bool
    requires { IsPairAt spec.now.relations rel.0 pair }
    ensures { IfSome (slice_get spec.now.relations rel.0) (λ r. result ≡ are_of_one_entity r.rows pair.earlier pair.later) }
{
    let rows = spec.relations()[rel.0 as usize].rows.as_slice();
    are_of_one_entity(rows, pair.earlier, pair.later)
}
