ghost use Rattle.std.specs.Prelude.{◌≡◌, ◌≢◌, ◌<◌, ◌+◌, ◌^◌, ◌++◌, All, Some, length, slice_get, slice_index, IfOk, OnOk};
ghost use Rattle.entity_ties.specs.Classes.{AreClasses, AreLabels, IsJoined, IsRelabelled, IsUnited, AreSingle};

use crate::links::Link;
use currency_base::{ItemList, NoMemory};
use std::alloc::Global;

/// Numbers.
pub(crate) type NumberList = ItemList<u32>;

/// Gives each number below a count a label: two have one label just where links lead from one to the other. The smaller of two
/// classes that a link joins gets the label of the larger, so each number is labelled a logarithm of times.
pub(crate) fn linked_labels(
    alloc: Global,
    count: usize,
    links: &[Link],
) -> Result<Vec<u32>, NoMemory>
    requires few { count < 2 ^ 32 }
    requires within { All (λ link. (link.one < count) × (link.other < count)) links.now }
    ensures many { IfOk result (λ labels. length labels.items ≡ count) }
    ensures labels { IfOk result (λ labels. AreLabels links.now labels.items) }
{
    let mut labels = Vec::with_capacity(alloc, count)?;
    let mut members = ItemList::new(alloc);
    single(alloc, count, &mut labels, &mut members)?;
    for link in links {
        join(alloc, &mut labels, &mut members, link.one, link.other)?;
    }
    Ok(labels)
}

// Gives each number itself as its label.
fn single(
    alloc: Global,
    count: usize,
    labels: &mut Vec<u32>,
    members: &mut ItemList<NumberList>,
) -> Result<(), NoMemory>
    requires few { count < 2 ^ 32 }
    requires labels { length labels.old.items ≡ 0 }
    requires members { length members.old ≡ 0 }
    ensures { OnOk result (AreSingle count labels.new.items members.new) }
{
    for number in 0..count {
        labels.push(number as u32)?;
        let mut class = NumberList::new(alloc);
        class.push(number as u32)?;
        members.push(class)?;
    }
    Ok(())
}

// Joins the classes of two numbers.
fn join(
    alloc: Global,
    labels: &mut Vec<u32>,
    members: &mut ItemList<NumberList>,
    one: u32,
    other: u32,
) -> Result<(), NoMemory>
    requires classes { AreClasses labels.old.items members.old }
    requires one { one < length labels.old.items }
    requires other { other < length labels.old.items }
    ensures classes { OnOk result (AreClasses labels.new.items members.new) }
    ensures joined { OnOk result (IsJoined one other labels.old.items labels.new.items) }
{
    let (one, other) = (labels[one as usize], labels[other as usize]);
    if one == other {
        return Ok(());
    }
    if members.get(one as usize).len() < members.get(other as usize).len() {
        return unite(alloc, labels, members, one, other);
    }
    unite(alloc, labels, members, other, one)
}

// Gives the numbers of one label another label.
fn unite(
    alloc: Global,
    labels: &mut Vec<u32>,
    members: &mut ItemList<NumberList>,
    from: u32,
    to: u32,
) -> Result<(), NoMemory>
    requires classes { AreClasses labels.old.items members.old }
    requires from { from < length members.old }
    requires to { to < length members.old }
    requires apart { from ≢ to }
    ensures classes { OnOk result (AreClasses labels.new.items members.new) }
    ensures united { OnOk result (IsUnited from to labels.old.items labels.new.items) }
{
    let moved = members.replace(from as usize, NumberList::new(alloc));
    relabel(labels, moved.as_slice(), to);
    let mut class = members.replace(to as usize, NumberList::new(alloc));
    append(&mut class, moved.as_slice())?;
    let _ = members.replace(to as usize, class);
    Ok(())
}

// Gives these numbers a label.
fn relabel(labels: &mut Vec<u32>, moved: &[u32], to: u32)
    requires { All (λ number. number < length labels.old.items) moved.now }
    ensures { IsRelabelled to moved.now labels.old.items labels.new.items }
{
    for number in moved {
        labels[*number as usize] = to;
    }
}

// Puts numbers behind others.
fn append(numbers: &mut NumberList, more: &[u32]) -> Result<(), NoMemory>
    ensures { OnOk result (numbers.new ≡ numbers.old ++ more.now) }
{
    for number in more {
        numbers.push(*number)?;
    }
    Ok(())
}
