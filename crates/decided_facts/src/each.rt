//! Facts decided over one part, one after the other.

ghost use Rattle.std.specs.Prelude.{◌≡◌, OnOk, Some, slice_get};
ghost use Rattle.posed_facts.specs.Facts.{IsPlaced, IsPosable};
ghost use Rattle.decided_facts.specs.Steps.{AreFound, IsCertain, IsSite, IsTask};
ghost use Rattle.spec_model.specs.Consistent.{IsConsistent};

use crate::claims::{are_of_one_place, current_claim, denied, follows_from_claim};
use crate::grouping::Key;
use crate::seen::{is_marked, is_seen_to_fail};
use crate::site::Site;
use crate::slots::put_model;
use crate::task::{Found, Round};
use crate::trying::{Near, try_near};
use currency_base::NoMemory;
use match_premises::Premise;
use posed_facts::Fact;
use solver_guides::Guides;
use spec_model::Completion;
use std::alloc::Global;

/// Decides these facts over a part.
pub(crate) fn decide_each(
    alloc: Global,
    site: &Site<'_>,
    keys: &[Key],
    guides: &mut Guides,
    found: &mut Found,
) -> Result<(), NoMemory>
    requires task { IsTask site.now.task.now.spec.now site.now.task.now.facts.now }
    requires site { IsSite site.now.task.now.spec.now site.now.places.now site.now.part.now }
    requires found { AreFound site.now.task.now.spec.now site.now.task.now.facts.now found.old.completions.items
        found.old.holds.items }
    ensures { OnOk result (AreFound site.now.task.now.spec.now site.now.task.now.facts.now found.new.completions.items
        found.new.holds.items) }
{
    let mut round = Round {
        used: site.task.known,
        claim: None,
        certain: false,
    };
    for key in keys {
        decide_one(alloc, site, key[1] as usize, guides, &mut round, found)?;
    }
    Ok(())
}

/// Decides the fact of a place, unless it is marked or seen to fail.
fn decide_one(
    alloc: Global,
    site: &Site<'_>,
    place: usize,
    guides: &mut Guides,
    round: &mut Round,
    found: &mut Found,
) -> Result<(), NoMemory>
    requires task { IsTask site.now.task.now.spec.now site.now.task.now.facts.now }
    requires site { IsSite site.now.task.now.spec.now site.now.places.now site.now.part.now }
    requires round { IsCertain site.now.task.now.spec.now round.old.claim round.old.certain }
    requires found { AreFound site.now.task.now.spec.now site.now.task.now.facts.now found.old.completions.items
        found.old.holds.items }
    ensures round { OnOk result (IsCertain site.now.task.now.spec.now round.new.claim round.new.certain) }
    ensures found { OnOk result (AreFound site.now.task.now.spec.now site.now.task.now.facts.now
        found.new.completions.items found.new.holds.items) }
{
    let task = site.task;
    let Some(fact) = task.facts.get(place) else {
        return Ok(());
    };
    if is_marked(&found.holds, place)
        || is_seen_to_fail(task.spec, fact, &found.completions, round.used)
    {
        return Ok(());
    }
    try_place(alloc, site, fact, guides, round, found)?;
    decide_tried(alloc, site, place, fact, guides, round, found)
}

/// Decides a fact, once the place that it denies is tried.
fn decide_tried(
    alloc: Global,
    site: &Site<'_>,
    place: usize,
    fact: &Fact,
    guides: &mut Guides,
    round: &mut Round,
    found: &mut Found,
) -> Result<(), NoMemory>
    requires task { IsTask site.now.task.now.spec.now site.now.task.now.facts.now }
    requires site { IsSite site.now.task.now.spec.now site.now.places.now site.now.part.now }
    requires fact { slice_get site.now.task.now.facts.now place ≡ Some fact.now }
    requires posable { IsPosable site.now.task.now.spec.now.relations fact.now }
    requires round { IsCertain site.now.task.now.spec.now round.old.claim round.old.certain }
    requires found { AreFound site.now.task.now.spec.now site.now.task.now.facts.now found.old.completions.items
        found.old.holds.items }
    ensures round { OnOk result (IsCertain site.now.task.now.spec.now round.new.claim round.new.certain) }
    ensures found { OnOk result (AreFound site.now.task.now.spec.now site.now.task.now.facts.now
        found.new.completions.items found.new.holds.items) }
{
    let spec = site.task.spec;
    if follows_from_claim(spec, fact, round, &found.completions[0]) {
        found.holds[place] = true;
        return Ok(());
    }
    if is_seen_to_fail(spec, fact, &found.completions, round.used) {
        return Ok(());
    }
    match try_near(alloc, site, fact, guides) {
        Ok(Near::Holds) => {
            found.holds[place] = true;
            Ok(())
        }
        Ok(Near::Fails(narrow)) => list_model(alloc, site, &narrow, round, found),
        Ok(Near::Unknown) => Ok(()),
        Err(NoMemory) => Err(NoMemory),
    }
}

/// Lists a completion that says of the part what this one says.
fn list_model(
    alloc: Global,
    site: &Site<'_>,
    narrow: &Completion,
    round: &mut Round,
    found: &mut Found,
) -> Result<(), NoMemory>
    requires site { IsSite site.now.task.now.spec.now site.now.places.now site.now.part.now }
    requires narrow { IsConsistent site.now.part.now narrow.now }
    requires round { IsCertain site.now.task.now.spec.now round.old.claim round.old.certain }
    requires found { AreFound site.now.task.now.spec.now site.now.task.now.facts.now found.old.completions.items
        found.old.holds.items }
    ensures round { OnOk result (IsCertain site.now.task.now.spec.now round.new.claim round.new.certain) }
    ensures found { OnOk result (AreFound site.now.task.now.spec.now site.now.task.now.facts.now
        found.new.completions.items found.new.holds.items) }
{
    put_model(alloc, site, narrow, round.used, &mut found.completions)?;
    round.used = round.used.saturating_add(1);
    Ok(())
}

/// Tries the place of which a fact denies a value, if it denies just one.
fn try_place(
    alloc: Global,
    site: &Site<'_>,
    fact: &Fact,
    guides: &mut Guides,
    round: &mut Round,
    found: &mut Found,
) -> Result<(), NoMemory>
    requires site { IsSite site.now.task.now.spec.now site.now.places.now site.now.part.now }
    requires posable { IsPosable site.now.task.now.spec.now.relations fact.now }
    requires round { IsCertain site.now.task.now.spec.now round.old.claim round.old.certain }
    requires found { AreFound site.now.task.now.spec.now site.now.task.now.facts.now found.old.completions.items
        found.old.holds.items }
    ensures round { OnOk result (IsCertain site.now.task.now.spec.now round.new.claim round.new.certain) }
    ensures found { OnOk result (AreFound site.now.task.now.spec.now site.now.task.now.facts.now
        found.new.completions.items found.new.holds.items) }
{
    match denied(fact) {
        Some(claim) => guess(alloc, site, claim, guides, round, found),
        None => Ok(()),
    }
}

/// Tries whether the value that the first completion has at the place of a claim is the current one in every consistent one,
/// unless that was tried last, or is seen to fail.
fn guess(
    alloc: Global,
    site: &Site<'_>,
    claim: Premise,
    guides: &mut Guides,
    round: &mut Round,
    found: &mut Found,
) -> Result<(), NoMemory>
    requires site { IsSite site.now.task.now.spec.now site.now.places.now site.now.part.now }
    requires claim { IsPlaced site.now.task.now.spec.now.relations claim }
    requires round { IsCertain site.now.task.now.spec.now round.old.claim round.old.certain }
    requires found { AreFound site.now.task.now.spec.now site.now.task.now.facts.now found.old.completions.items
        found.old.holds.items }
    ensures round { OnOk result (IsCertain site.now.task.now.spec.now round.new.claim round.new.certain) }
    ensures found { OnOk result (AreFound site.now.task.now.spec.now site.now.task.now.facts.now
        found.new.completions.items found.new.holds.items) }
{
    let spec = site.task.spec;
    if is_last(site, round, claim) {
        return Ok(());
    }
    let current = current_claim(spec, claim, &found.completions[0]);
    round.claim = Some(current);
    round.certain = false;
    let fact = Fact::Current(current);
    if is_seen_to_fail(spec, &fact, &found.completions, round.used) {
        return Ok(());
    }
    match try_near(alloc, site, &fact, guides) {
        Ok(Near::Holds) => {
            round.certain = true;
            Ok(())
        }
        Ok(Near::Fails(narrow)) => list_model(alloc, site, &narrow, round, found),
        Ok(Near::Unknown) => Ok(()),
        Err(NoMemory) => Err(NoMemory),
    }
}

/// Was the place of a claim tried last?
fn is_last(site: &Site<'_>, round: &Round, claim: Premise) -> bool {
    match round.claim {
        Some(last) => are_of_one_place(site.task.spec, last, claim),
        None => false,
    }
}
