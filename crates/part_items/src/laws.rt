ghost use Rattle.part_items.specs.Laws.{ItemsAreParted};

/// A law: a part with some of its items is the part of the whole with those items.
pub fn items_are_parted()
    ensures { ItemsAreParted }
{}
