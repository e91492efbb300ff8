// A lost completion is mended: a part of it is decided alone.

ghost use Rattle.std.specs.Prelude.{IfOk, IfSome};
ghost use Rattle.part_join.specs.Fits.{FitsPart};
ghost use Rattle.search_logs.specs.SearchLogs.{IsWithin};
ghost use Rattle.spec_model.specs.Completion.{HasShape};
ghost use Rattle.spec_model.specs.Consistent.{IsConsistent};
ghost use Rattle.spec_parts.specs.Built.{AreClosedPlaces};

use crate::broken::broken_places;
use crate::copying::{if_consistent, listed_first};
use crate::laws::is_specification;
use crate::start::Lost;
use currency_ask::{AskFault, answer};
use currency_base::NoMemory;
use part_join::{completions_fit, joined};
use part_limits::parts_are_within;
use part_places::Places;
use solver_guides::Guides;
use spec_model::{Completion, Question, Specification};
use spec_parts::{GivenIndex, part};
use std::alloc::Global;

/// A consistent completion that is a lost one but for the parts in which that is broken. None, where these are decided
/// otherwise, or not within the budget. What is found is looked at as a whole.
pub(crate) fn mended(
    alloc: Global,
    spec: &Specification,
    lost: &Lost,
    budget: u64,
    guides: &mut Guides,
) -> Result<Option<Completion>, NoMemory>
    requires within { IsWithin spec.now }
    requires shape { HasShape spec.now.relations lost.now.completion }
    ensures { IfOk result (λ found. IfSome found (IsConsistent spec.now)) }
{
    let places = broken_places(alloc, spec, lost)?;
    match decided(alloc, spec, &places, budget, guides) {
        Ok(Some(narrow)) => put_together(alloc, spec, &places, &lost.completion, &narrow),
        Ok(None) => Ok(None),
        Err(error) => Err(error),
    }
}

/// A consistent completion of the part of these places, where a search within the budget finds one.
fn decided(
    alloc: Global,
    spec: &Specification,
    places: &Places,
    budget: u64,
    guides: &mut Guides,
) -> Result<Option<Completion>, NoMemory>
    requires within { IsWithin spec.now }
    requires places { AreClosedPlaces spec.now places.now }
    ensures { IfOk result (λ found. IfSome found (FitsPart spec.now.relations places.now)) }
{
    parts_are_within();
    completions_fit();
    let given = GivenIndex::new(alloc, spec)?;
    let part = part(alloc, spec, &given, places)?;
    is_specification(&part);
    some_completion(alloc, &part, budget, guides)
}

/// A consistent completion, where there is one, and a search within the budget finds it.
fn some_completion(
    alloc: Global,
    spec: &Specification,
    budget: u64,
    guides: &mut Guides,
) -> Result<Option<Completion>, NoMemory>
    requires within { IsWithin spec.now }
    ensures { IfOk result (λ found. IfSome found (IsConsistent spec.now)) }
{
    match answer(alloc, spec, &Question::Consistent, budget, guides) {
        Ok(report) => listed_first(alloc, spec, &report),
        Err(AskFault::TooMany(_)) => Ok(None),
        Err(AskFault::NoMemory) => Err(NoMemory),
    }
}

/// A lost completion with the lists of a part from another, if that is consistent.
fn put_together(
    alloc: Global,
    spec: &Specification,
    places: &Places,
    lost: &Completion,
    narrow: &Completion,
) -> Result<Option<Completion>, NoMemory>
    requires places { AreClosedPlaces spec.now places.now }
    requires shape { HasShape spec.now.relations lost.now }
    requires narrow { FitsPart spec.now.relations places.now narrow.now }
    ensures { IfOk result (λ found. IfSome found (IsConsistent spec.now)) }
{
    let whole = joined(alloc, spec, places, lost, narrow)?;
    if_consistent(alloc, spec, whole)
}
