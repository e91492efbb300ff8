ghost use Rattle.std.specs.Prelude.{◌≡◌, ◌<◌, ◌≤◌, length, slice_set, cond};
ghost use Rattle.std.specs.List.{filter};
ghost use Rattle.watch_links.specs.Links.{coming_after, list_of, lists_without};
ghost use Rattle.clause_arena.specs.Slots.{is_of_other};

use watch_links::WatchLinks;

// Cuts a slot out of its owner's list, behind the one before it, where it is one of the clause. Tells whether it stays.
fn drop_slot(
    links: &mut WatchLinks,
    clause: u32,
    owner: u32,
    before: Option<u32>,
    slot: u32,
) -> bool
    requires { coming_after before (list_of links.old.lists owner) ≡ Some slot }
    ensures lists { links.new.lists ≡ cond (is_of_other clause slot)
        links.old.lists (lists_without links.old.lists owner slot) }
    ensures slots { links.new.slots ≡ links.old.slots }
    ensures room { links.new.room ≡ links.old.room }
    ensures stays { result ≡ is_of_other clause slot }
{
    if slot / 2 == clause {
        links.cut(before, slot, owner);
        return false;
    }
    true
}

/// Takes the slots of a clause off one owner's list, over which it walks.
pub(crate) fn drop_from(links: &mut WatchLinks, clause: u32, owner: u32)
    requires { owner < length links.old.lists }
    ensures lists { links.new.lists ≡ slice_set links.old.lists owner
        (filter (is_of_other clause) (list_of links.old.lists owner)) }
    ensures slots { links.new.slots ≡ links.old.slots }
    ensures room { links.new.room ≡ links.old.room }
{
    let mut before = None;
    let mut at = links.first(owner);
    while let Some(slot) = at {
        links.are_whole();
        at = links.next(slot);
        if drop_slot(links, clause, owner, before, slot) {
            before = Some(slot);
        }
    }
}
