ghost use Rattle.std.specs.Prelude.{IfOk, IfSome};
ghost use Rattle.std.specs.Bool.{OnTrue};
ghost use Rattle.semi_joins.specs.Kept.{AreLinks, IsLedAt, IsLink};

use currency_base::NoMemory;
use query_model::Term;
use query_plan::Conditions;
use std::alloc::Global;

/// Places of an atom, and for each a place of another that has its value in every match.
#[derive(Drop)]
pub(crate) struct Links {
    pub here: Vec<usize>,
    pub there: Vec<usize>,
}

/// The places at which two atoms have one value in every match: those of one variable, or of two that are equal by the
/// comparisons. Each variable is named once.
pub(crate) fn links_of(
    alloc: Global,
    conditions: &Conditions,
    ones: &[Term],
    others: &[Term],
) -> Result<Links, NoMemory>
    ensures { IfOk result (λ links. AreLinks conditions.now.tests ones.now others.now links.here.items links.there.items) }
{
    let mut here = Vec::new(alloc);
    let mut there = Vec::new(alloc);
    for place in 0..ones.len() {
        let Some(other) = link_of(conditions, ones, place, others) else {
            continue;
        };
        here.push(place)?;
        there.push(other)?;
    }
    Ok(Links { here, there })
}

// The first place of other terms that has the value of a place, if this is the first that has it.
fn link_of(conditions: &Conditions, ones: &[Term], place: usize, others: &[Term]) -> Option<usize>
    ensures { IfSome result (IsLink conditions.now.tests ones.now others.now place) }
{
    let led = leader_at(conditions, ones, place)?;
    let first = place_of(conditions, ones, led)?;
    if first != place {
        return None;
    }
    place_of(conditions, others, led)
}

// The first place that has the value of a variable that leads others.
fn place_of(conditions: &Conditions, terms: &[Term], led: u32) -> Option<usize>
    ensures { IfSome result (λ place. IsLedAt conditions.now.tests terms.now place led) }
{
    for place in 0..terms.len() {
        if is_led_at(conditions, terms, place, led) {
            return Some(place);
        }
    }
    None
}

// Has a place the value of a variable that leads others?
fn is_led_at(conditions: &Conditions, terms: &[Term], place: usize, led: u32) -> bool
    ensures { OnTrue result (IsLedAt conditions.now.tests terms.now place led) }
{
    match leader_at(conditions, terms, place) {
        Some(own) => own == led,
        None => false,
    }
}

// The variable that leads the one of a place.
fn leader_at(conditions: &Conditions, terms: &[Term], place: usize) -> Option<u32>
    ensures { IfSome result (IsLedAt conditions.now.tests terms.now place) }
{
    match terms.get(place)? {
        Term::Var(var) => Some(conditions.leader(*var)),
        Term::Any => None,
        Term::Constant(_) => None,
    }
}

/// How many such places there are.
pub(crate) fn count_links(conditions: &Conditions, ones: &[Term], others: &[Term]) -> usize {
    let mut count = 0usize;
    for place in 0..ones.len() {
        if link_of(conditions, ones, place, others) != None {
            count = count.saturating_add(1);
        }
    }
    count
}
