//! Facts decided over the smallest parts of which they speak. What is found is right; that nothing is found says nothing.

ghost use Rattle.std.specs.Prelude.{◌<◌, All, OnOk};
ghost use Rattle.entity_ties.specs.Labels.{AreTies};
ghost use Rattle.decided_facts.specs.Steps.{AreFound, IsTask};
ghost use Rattle.spec_model.specs.Consistent.{IsConsistent};
ghost use Rattle.spec_parts.specs.Built.{AreClosedPlaces};
ghost use Rattle.spec_parts.specs.Index.{AreIndexed};

use crate::each::decide_each;
use crate::grouping::{Key, by_part, end_of};
use crate::laws::is_specification;
use crate::seen::{is_marked, is_seen_to_fail};
use crate::site::Site;
use crate::task::{Found, Task};
use currency_base::NoMemory;
use entity_ties::Ties;
use part_limits::parts_are_within;
use part_places::Places;
use solver_guides::Guides;
use spec_parts::{GivenIndex, part};
use std::alloc::Global;

/// The smallest parts of a specification, and its given pairs by entity.
#[derive(Clone, Copy)]
struct Parts<'a> {
    ties: &'a Ties,
    given: &'a GivenIndex,
}

/// Decides facts part by part, where there is more than one part and something is left.
pub(crate) fn decide_near(
    alloc: Global,
    task: &Task<'_>,
    guides: &mut Guides,
    found: &mut Found,
) -> Result<(), NoMemory>
    requires task { IsTask task.now.spec.now task.now.facts.now }
    requires found { AreFound task.now.spec.now task.now.facts.now found.old.completions.items found.old.holds.items }
    ensures { OnOk result (AreFound task.now.spec.now task.now.facts.now found.new.completions.items found.new.holds.items) }
{
    if are_all_marked(&found.holds) {
        return Ok(());
    }
    let ties = Ties::new(alloc, task.spec)?;
    if ties.count() <= 1 {
        return Ok(());
    }
    let given = GivenIndex::new(alloc, task.spec)?;
    let parts = Parts {
        ties: &ties,
        given: &given,
    };
    let keys = by_part(alloc, task, &ties)?;
    decide_parts(alloc, task, &parts, &keys, guides, found)
}

/// The same, where the facts are listed by part.
fn decide_parts(
    alloc: Global,
    task: &Task<'_>,
    parts: &Parts<'_>,
    keys: &[Key],
    guides: &mut Guides,
    found: &mut Found,
) -> Result<(), NoMemory>
    requires task { IsTask task.now.spec.now task.now.facts.now }
    requires ties { AreTies task.now.spec.now parts.now.ties.now }
    requires given { AreIndexed task.now.spec.now.relations parts.now.given.now }
    requires found { AreFound task.now.spec.now task.now.facts.now found.old.completions.items found.old.holds.items }
    ensures { OnOk result (AreFound task.now.spec.now task.now.facts.now found.new.completions.items found.new.holds.items) }
{
    let mut start = 0;
    for number in 0..parts.ties.count() {
        if let Ok(number) = u32::try_from(number) {
            let end = end_of(keys, start, number);
            decide_part(alloc, task, parts, number, &keys[start..end], guides, found)?;
            start = end;
        }
    }
    Ok(())
}

/// Decides the facts that speak of one part.
fn decide_part(
    alloc: Global,
    task: &Task<'_>,
    parts: &Parts<'_>,
    number: u32,
    keys: &[Key],
    guides: &mut Guides,
    found: &mut Found,
) -> Result<(), NoMemory>
    requires task { IsTask task.now.spec.now task.now.facts.now }
    requires ties { AreTies task.now.spec.now parts.now.ties.now }
    requires given { AreIndexed task.now.spec.now.relations parts.now.given.now }
    requires number { number < parts.now.ties.now.count }
    requires found { AreFound task.now.spec.now task.now.facts.now found.old.completions.items found.old.holds.items }
    ensures { OnOk result (AreFound task.now.spec.now task.now.facts.now found.new.completions.items found.new.holds.items) }
{
    if !is_any_left(task, keys, found) {
        return Ok(());
    }
    let places = parts.ties.places(alloc, task.spec, &[number])?;
    decide_at(alloc, task, parts.given, &places, keys, guides, found)
}

/// Are all facts marked?
fn are_all_marked(holds: &[bool]) -> bool {
    for is_marked in holds {
        if !*is_marked {
            return false;
        }
    }
    true
}

/// Is one of these facts neither marked nor seen to fail?
fn is_any_left(task: &Task<'_>, keys: &[Key], found: &Found) -> bool
    requires task { IsTask task.now.spec.now task.now.facts.now }
    requires consistent { All (IsConsistent task.now.spec.now) found.now.completions.items }
{
    for key in keys {
        if is_left(task, key[1] as usize, found) {
            return true;
        }
    }
    false
}

/// Is the fact of a place neither marked nor seen to fail?
fn is_left(task: &Task<'_>, place: usize, found: &Found) -> bool
    requires task { IsTask task.now.spec.now task.now.facts.now }
    requires consistent { All (IsConsistent task.now.spec.now) found.now.completions.items }
{
    match task.facts.get(place) {
        Some(fact) => {
            !is_marked(&found.holds, place)
                && !is_seen_to_fail(task.spec, fact, &found.completions, task.known)
        }
        None => false,
    }
}

/// Decides facts over the part of these places.
fn decide_at(
    alloc: Global,
    task: &Task<'_>,
    given: &GivenIndex,
    places: &Places,
    keys: &[Key],
    guides: &mut Guides,
    found: &mut Found,
) -> Result<(), NoMemory>
    requires task { IsTask task.now.spec.now task.now.facts.now }
    requires given { AreIndexed task.now.spec.now.relations given.now }
    requires places { AreClosedPlaces task.now.spec.now places.now }
    requires found { AreFound task.now.spec.now task.now.facts.now found.old.completions.items found.old.holds.items }
    ensures { OnOk result (AreFound task.now.spec.now task.now.facts.now found.new.completions.items found.new.holds.items) }
{
    parts_are_within();
    let part = part(alloc, task.spec, given, places)?;
    is_specification(&part);
    let site = Site {
        task,
        places,
        part: &part,
    };
    decide_each(alloc, &site, keys, guides, found)
}
