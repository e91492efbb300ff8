ghost use Rattle.std.specs.Prelude.{◌≡◌, true, false};
ghost use Rattle.spec_model.specs.Completion.{Before, IsCompletion, lists_of};
ghost use Rattle.spec_model.specs.Questions.{IsAskedPair};
ghost use Rattle.ranked_pairs.specs.Met.{IsMetFirst};

use currency_base::RowId;
use spec_model::{Asked, Completion, Specification};

/// Does a pair hold in a completion: does its earlier row stand before its later one in the list of their
/// entity? Takes no memory, and time in proportion to the rows of the entity.
pub fn pair_holds(spec: &Specification, completion: &Completion, asked: Asked) -> bool
    requires completion { IsCompletion spec.now.relations completion.now }
    requires pair { IsAskedPair spec.now.relations asked }
    ensures holds { result ≡ true → Before (lists_of completion.now asked.rel.0 asked.pair.attr.0) asked.pair.earlier
        asked.pair.later }
    ensures fails { result ≡ false → Before (lists_of completion.now asked.rel.0 asked.pair.attr.0)
        asked.pair.earlier asked.pair.later → ⊥ }
{
    let pair = asked.pair;
    let relation = &spec.relations()[asked.rel.0 as usize];
    let ent = relation.rows.row(pair.earlier).entity;
    let list = completion.ranking(asked.rel, pair.attr, ent);
    is_met_first(list, pair.earlier, pair.later)
}

// Of two rows, is this one met in the list, and the other not before it?
fn is_met_first(list: &[RowId], row: RowId, other: RowId) -> bool
    ensures met { result ≡ true → IsMetFirst list.now row other }
    ensures unmet { result ≡ false → IsMetFirst list.now row other → ⊥ }
{
    for listed in list {
        if *listed == row {
            return true;
        }
        if *listed == other {
            return false;
        }
    }
    false
}
