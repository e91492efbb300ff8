ghost use Rattle.std.specs.Prelude.{◌≡◌, ◌∷◌, []};
ghost use Rattle.spec_model.specs.Completion.{with_ranking};
ghost use Rattle.known_models.specs.Ranked.{ArePut, HaveRoom};

use crate::draft::RankedList;
use currency_base::ItemList;
use spec_model::{Completion, set_keeps_shape};

/// Puts ranked lists at their places.
pub(crate) fn put_lists(completion: &mut Completion, lists: ItemList<RankedList>)
    requires { HaveRoom completion.old lists }
    ensures { ArePut lists completion.old completion.new }
{
    set_keeps_shape();
    for list in lists.into_items() {
        put_list(completion, list);
    }
}

// Puts one ranked list at its place.
fn put_list(completion: &mut Completion, list: RankedList)
    requires { HaveRoom completion.old (list ∷ []) }
    ensures { completion.new ≡ with_ranking completion.old list.rel.0 list.attr.0 list.ent.0 list.rows }
{
    let RankedList {
        rel,
        attr,
        ent,
        rows,
    } = list;
    completion.set(rel, attr, ent, rows);
}
