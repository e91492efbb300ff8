//! What explains the fact over the part.

ghost use Rattle.std.specs.Prelude.{IfOk, IfSome};
ghost use Rattle.minimal_items.specs.Explanations.{IsExplanation};
ghost use Rattle.unit_questions.specs.Facts.{FactHolds};
ghost use Rattle.near_items.specs.Sites.{IsSite};

use crate::named::named;
use crate::site::Site;
use currency_base::NoMemory;
use minimal_items::{AskFault, NeededList, Reduced, answer, reduce};
use refutation_log::Log;
use solver_guides::Guides;
use spec_items::items;
use std::alloc::Global;

/// What explains the fact over the part: sought among the items that a derivation over it names. None, where it does not hold
/// there, or a budget is spent.
pub(crate) fn find(
    alloc: Global,
    site: &Site<'_>,
    budget: u64,
    guides: &mut Guides,
) -> Result<Option<NeededList>, NoMemory>
    requires site { IsSite site.now.spec.now site.now.places.now site.now.part.now site.now.question.now site.now.asks.now }
    ensures { IfOk result (λ found. IfSome found (IsExplanation site.now.part.now
        (FactHolds site.now.part.now.relations site.now.asks.now))) }
{
    match answer(alloc, site.part, site.asks, budget, guides) {
        Ok(report) => find_named(alloc, site, &report.log, budget, guides),
        Err(AskFault::TooMany(_)) => Ok(None),
        Err(AskFault::NoMemory) => Err(NoMemory),
    }
}

/// The same, where this derivation is at hand.
fn find_named(
    alloc: Global,
    site: &Site<'_>,
    log: &Log,
    budget: u64,
    guides: &mut Guides,
) -> Result<Option<NeededList>, NoMemory>
    requires site { IsSite site.now.spec.now site.now.places.now site.now.part.now site.now.question.now site.now.asks.now }
    ensures { IfOk result (λ found. IfSome found (IsExplanation site.now.part.now
        (FactHolds site.now.part.now.relations site.now.asks.now))) }
{
    let list = items(alloc, site.part)?;
    let marks = named(alloc, list.as_slice(), log)?;
    match reduce(alloc, site.part, site.asks, &marks, budget, guides) {
        Ok(Reduced::Needs(needed)) => Ok(Some(needed)),
        Ok(_) => Ok(None),
        Err(NoMemory) => Err(NoMemory),
    }
}
