//! An explanation sought over a part. What is found there is one of the whole; that nothing is found says nothing.

ghost use Rattle.std.specs.Prelude.{IfOk, IfSome, option_map};
ghost use Rattle.minimal_items.specs.Explanations.{IsExplanation};
ghost use Rattle.part_facts.specs.Questions.{IsPartQuestion};
ghost use Rattle.search_logs.specs.SearchLogs.{IsWithin};
ghost use Rattle.spec_model.specs.Consistent.{IsConsistent};
ghost use Rattle.spec_parts.specs.Built.{AreClosedPlaces};
ghost use Rattle.unit_questions.specs.Facts.{FactHolds, IsFactQuestion};
ghost use Rattle.near_items.specs.Sites.{IsSite};
ghost use Rattle.near_items.specs.Sought.{IsBase};

use crate::asking::{Asking, asked_of};
use crate::base::rules_alone;
use crate::finding::find;
use crate::laws::is_specification;
use crate::site::Site;
use crate::touched::touched;
use crate::widening::widen;
use currency_base::NoMemory;
use entity_ties::Ties;
use minimal_items::NeededList;
use part_facts::parts_are_asked;
use part_limits::parts_are_within;
use part_places::Places;
use refutation_log::Log;
use solver_guides::Guides;
use spec_items::{all_items, fewer_items};
use spec_model::{Completion, Question, Specification};
use spec_parts::{GivenIndex, part};
use std::alloc::Global;

/// An explanation of the fact of a question, sought over the smallest part that has the entities of which a derivation and the
/// question speak; none, where that shows nothing.
pub(crate) fn near(
    alloc: Global,
    spec: &Specification,
    question: &Question,
    log: &Log,
    base: Option<&Completion>,
    budget: u64,
    guides: &mut Guides,
) -> Result<Option<NeededList>, NoMemory>
    requires within { IsWithin spec.now }
    requires question { IsFactQuestion spec.now.relations question.now }
    requires base { IsBase spec.now (option_map (λ c. c.now) base) }
    ensures { IfOk result (λ found. IfSome found (IsExplanation spec.now (FactHolds spec.now.relations question.now))) }
{
    let places = closed_places(alloc, spec, question, log)?;
    match asked_of(alloc, &places, question) {
        Ok(Asking::Same) => over(
            alloc, spec, &places, question, question, base, budget, guides,
        ),
        Ok(Asking::Other(asks)) => over(
            alloc, spec, &places, question, &asks, base, budget, guides,
        ),
        Ok(Asking::Beyond) => Ok(None),
        Err(NoMemory) => Err(NoMemory),
    }
}

/// The places of the smallest parts of which a derivation and a question speak.
fn closed_places(
    alloc: Global,
    spec: &Specification,
    question: &Question,
    log: &Log,
) -> Result<Places, NoMemory>
    ensures { IfOk result (AreClosedPlaces spec.now) }
{
    let ties = Ties::new(alloc, spec)?;
    let parts = touched(alloc, spec, &ties, question, log)?;
    ties.places(alloc, spec, &parts)
}

/// The same over the part of these places, of which this is asked.
fn over(
    alloc: Global,
    spec: &Specification,
    places: &Places,
    question: &Question,
    asks: &Question,
    base: Option<&Completion>,
    budget: u64,
    guides: &mut Guides,
) -> Result<Option<NeededList>, NoMemory>
    requires within { IsWithin spec.now }
    requires places { AreClosedPlaces spec.now places.now }
    requires question { IsFactQuestion spec.now.relations question.now }
    requires asks { IsPartQuestion places.now asks.now question.now }
    requires base { IsBase spec.now (option_map (λ c. c.now) base) }
    ensures { IfOk result (λ found. IfSome found (IsExplanation spec.now (FactHolds spec.now.relations question.now))) }
{
    parts_are_within();
    parts_are_asked();
    let given = GivenIndex::new(alloc, spec)?;
    let part = part(alloc, spec, &given, places)?;
    is_specification(&part);
    let site = Site {
        spec,
        places,
        part: &part,
        question,
        asks,
    };
    explain_at(alloc, &site, base, budget, guides)
}

/// An explanation that is found over the part, as one of the whole.
fn explain_at(
    alloc: Global,
    site: &Site<'_>,
    base: Option<&Completion>,
    budget: u64,
    guides: &mut Guides,
) -> Result<Option<NeededList>, NoMemory>
    requires site { IsSite site.now.spec.now site.now.places.now site.now.part.now site.now.question.now site.now.asks.now }
    requires base { IsBase site.now.spec.now (option_map (λ c. c.now) base) }
    ensures { IfOk result (λ found. IfSome found (IsExplanation site.now.spec.now
        (FactHolds site.now.spec.now.relations site.now.question.now))) }
{
    match find(alloc, site, budget, guides) {
        Ok(Some(narrow)) => explain_with(alloc, site, &narrow, base, budget, guides),
        Ok(None) => Ok(None),
        Err(NoMemory) => Err(NoMemory),
    }
}

/// The same, joined with a consistent completion of the whole, or, where there is none, with one that satisfies the rules.
fn explain_with(
    alloc: Global,
    site: &Site<'_>,
    narrow: &NeededList,
    base: Option<&Completion>,
    budget: u64,
    guides: &mut Guides,
) -> Result<Option<NeededList>, NoMemory>
    requires site { IsSite site.now.spec.now site.now.places.now site.now.part.now site.now.question.now site.now.asks.now }
    requires narrow { IsExplanation site.now.part.now (FactHolds site.now.part.now.relations site.now.asks.now) narrow.now }
    requires base { IsBase site.now.spec.now (option_map (λ c. c.now) base) }
    ensures { IfOk result (λ found. IfSome found (IsExplanation site.now.spec.now
        (FactHolds site.now.spec.now.relations site.now.question.now))) }
{
    match base {
        Some(base) => explain_by(alloc, site, narrow, base),
        None => explain_alone(alloc, site, narrow, budget, guides),
    }
}

/// The same with a consistent completion of the whole, which satisfies all rules.
fn explain_by(
    alloc: Global,
    site: &Site<'_>,
    narrow: &NeededList,
    base: &Completion,
) -> Result<Option<NeededList>, NoMemory>
    requires site { IsSite site.now.spec.now site.now.places.now site.now.part.now site.now.question.now site.now.asks.now }
    requires narrow { IsExplanation site.now.part.now (FactHolds site.now.part.now.relations site.now.asks.now) narrow.now }
    requires base { IsConsistent site.now.spec.now base.now }
    ensures { IfOk result (λ found. IfSome found (IsExplanation site.now.spec.now
        (FactHolds site.now.spec.now.relations site.now.question.now))) }
{
    all_items();
    fewer_items();
    widen(alloc, site, base, narrow)
}

/// The same with a completion that satisfies the rules of the explanation.
fn explain_alone(
    alloc: Global,
    site: &Site<'_>,
    narrow: &NeededList,
    budget: u64,
    guides: &mut Guides,
) -> Result<Option<NeededList>, NoMemory>
    requires site { IsSite site.now.spec.now site.now.places.now site.now.part.now site.now.question.now site.now.asks.now }
    requires narrow { IsExplanation site.now.part.now (FactHolds site.now.part.now.relations site.now.asks.now) narrow.now }
    ensures { IfOk result (λ found. IfSome found (IsExplanation site.now.spec.now
        (FactHolds site.now.spec.now.relations site.now.question.now))) }
{
    match rules_alone(alloc, site.spec, narrow, budget, guides) {
        Ok(Some(base)) => widen(alloc, site, &base, narrow),
        Ok(None) => Ok(None),
        Err(NoMemory) => Err(NoMemory),
    }
}
