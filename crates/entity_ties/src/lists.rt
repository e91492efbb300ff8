ghost use Rattle.std.specs.Prelude.{◌≡◌, ◌<◌, ◌+◌, ◌≤◌, ◌^◌, All, [], length, replicate, slice_get, slice_index, IfOk, OnOk, Some};
ghost use Rattle.entity_ties.specs.Parts.{AreCut, ArePartsOf, Puts, IsRoom};

use crate::cells::{Member, MemberList};
use currency_base::{ItemList, NoMemory};
use flat_lists::FlatLists;
use spec_model::Relation;
use std::alloc::Global;

/// So many lists with no item.
pub(crate) fn empty_lists<T: Drop>(
    alloc: Global,
    count: usize,
) -> Result<ItemList<ItemList<T>>, NoMemory>
    ensures { IfOk result (λ lists. lists ≡ replicate count []) }
{
    let mut lists = ItemList::new(alloc);
    for _place in 0..count {
        lists.push(ItemList::new(alloc))?;
    }
    Ok(lists)
}

/// Puts an item into the list at a place.
pub(crate) fn put<T: Drop>(
    alloc: Global,
    lists: &mut ItemList<ItemList<T>>,
    place: usize,
    item: T,
) -> Result<(), NoMemory>
    requires { place < length lists.old }
    ensures { OnOk result (Puts place item lists.old lists.new) }
{
    let mut list = lists.replace(place, ItemList::new(alloc));
    list.push(item)?;
    let _ = lists.replace(place, list);
    Ok(())
}

/// The entities of each part, by the labels of their numbers.
pub(crate) fn members_by_label(
    alloc: Global,
    members: &[Member],
    labels: &[u32],
    count: u32,
) -> Result<ItemList<MemberList>, NoMemory>
    requires many { length labels.now ≡ length members.now }
    requires below { All (λ label. label < count) labels.now }
    ensures { IfOk result (λ parts. ArePartsOf members.now labels.now count parts) }
{
    let mut parts = empty_lists(alloc, count as usize)?;
    for place in 0..members.len() {
        put(alloc, &mut parts, labels[place] as usize, members[place])?;
    }
    Ok(parts)
}

/// The labels of each relation's entities, which follow its first number.
pub(crate) fn labels_by_relation(
    alloc: Global,
    relations: &[Relation],
    firsts: &[u32],
    labels: &[u32],
) -> Result<FlatLists<u32>, NoMemory>
    requires firsts { length firsts.now ≡ length relations.now }
    requires room { IsRoom relations.now firsts.now (length labels.now) }
    ensures { IfOk result (λ lists. AreCut relations.now (length relations.now) firsts.now labels.now lists) }
{
    let mut lists = FlatLists::new(alloc);
    for rel in 0..relations.len() {
        let start = firsts[rel] as usize;
        let end = start + relations[rel].entities.len();
        lists.push(&labels[start..end])?;
    }
    Ok(lists)
}
