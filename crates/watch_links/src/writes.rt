ghost use Rattle.std.specs.Prelude.{◌≡◌, ◌+◌, ◌<◌, ◌≤◌, ◌∷◌, ◌++◌, [], length, replicate, slice_set, vec_len, vec_capacity, IfOk, IfSome};
ghost use Rattle.watch_links.specs.Chains.{no_slot, slot_at, nexts, copies, nexts_led, firsts_led};

use currency_base::NoMemory;
use std::alloc::Global;

/// The link that leads to no slot.
pub(crate) const NO_SLOT: u32 = u32::MAX;

/// Half of a clause's head: the link of one of its slots to the slot after it in its list, and a copy of the list's owner. The
/// halves of a clause stand side by side, in sixteen bytes, so that who walks over one list sees the owner of the other there.
#[derive(Clone, Copy)]
pub(crate) struct Link {
    pub next: u32,
    pub owner: u32,
}

// the link of a slot that stands in no list
const NO_LINK: Link = Link {
    next: NO_SLOT,
    owner: 0,
};

/// The slot that a link leads to.
pub(crate) fn slot_at(link: u32) -> Option<u32>
    ensures { result ≡ slot_at link }
{
    if link == NO_SLOT { None } else { Some(link) }
}

/// Leads an owner's list on from a slot: that one's link leads to the slot that is to come after it. Where none comes before, the
/// owner's link to its first slot does.
pub(crate) fn lead(
    links: &mut Vec<Link>,
    firsts: &mut Vec<u32>,
    owner: u32,
    before: Option<u32>,
    after: u32,
)
    requires inside { owner < length firsts.old.items }
    requires below { IfSome before (λ slot. slot < length links.old.items) }
    ensures next { nexts links.new.items ≡ nexts_led (nexts links.old.items) before after }
    ensures copies { copies links.new.items ≡ copies links.old.items }
    ensures firsts { firsts.new.items ≡ firsts_led firsts.old.items owner before after }
    ensures capacity { vec_capacity links.new ≡ vec_capacity links.old }
{
    match before {
        Some(slot) => links[slot as usize].next = after,
        None => firsts[owner as usize] = after,
    }
}

/// Sets the link of a slot, and the owner that it copies.
pub(crate) fn write_link(links: &mut Vec<Link>, slot: u32, next: u32, owner: u32)
    requires { slot < vec_len links.old }
    ensures next { nexts links.new.items ≡ slice_set (nexts links.old.items) slot next }
    ensures copies { copies links.new.items ≡ slice_set (copies links.old.items) slot owner }
    ensures capacity { vec_capacity links.new ≡ vec_capacity links.old }
{
    links[slot as usize] = Link { next, owner };
}

/// Links of two more slots, which lead to no slot. There has to be room for them.
pub(crate) fn push_no_links(links: &mut Vec<Link>)
    requires { vec_len links.old + 2 ≤ vec_capacity links.old }
    ensures next { nexts links.new.items ≡ nexts links.old.items ++ no_slot ∷ no_slot ∷ [] }
    ensures copies { copies links.new.items ≡ copies links.old.items ++ 0 ∷ 0 ∷ [] }
    ensures length { vec_len links.new ≡ vec_len links.old + 2 }
    ensures capacity { vec_capacity links.old ≤ vec_capacity links.new }
{
    let Ok(()) = links.push(NO_LINK) else {
        unreachable!();
    };
    let Ok(()) = links.push(NO_LINK) else {
        unreachable!();
    };
}

/// A link for each owner, which leads to no slot.
pub(crate) fn no_links(alloc: Global, owners: u32) -> Result<Vec<u32>, NoMemory>
    ensures { IfOk result (λ links. links.items ≡ replicate owners no_slot) }
{
    match Vec::from_elem(alloc, NO_SLOT, owners as usize) {
        Ok(links) => Ok(links),
        Err(_) => Err(NoMemory),
    }
}
