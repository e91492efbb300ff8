ghost use Rattle.part_widens.specs.Laws.{ExplanationsWiden};

use part_facts::facts_widen;
use part_items::items_are_parted;
use part_laws::{parts_keep_facts, parts_narrow};
use part_narrow::narrows_exist;
use spec_items::fewer_items;

/// A law: what explains a fact over a part explains it over the whole, each completion being joined with one of the whole
/// that satisfies the explanation's rules.
pub fn explanations_widen()
    ensures { ExplanationsWiden }
{
    items_are_parted();
    narrows_exist();
    parts_narrow();
    parts_keep_facts();
    fewer_items();
    facts_widen();
}
