//! Which facts are seen to fail in listed completions.

ghost use Rattle.std.specs.Prelude.{◌≡◌, ◌<◌, ◌^◌, All, IfSome};
ghost use Rattle.posed_facts.specs.Facts.{IsPosable};
ghost use Rattle.decided_facts.specs.Decided.{FailsAt};
ghost use Rattle.spec_model.specs.Consistent.{IsConsistent};

use posed_facts::{Fact, holds_in};
use spec_model::{Completion, Specification};

/// Is the fact of a place marked?
pub(crate) fn is_marked(holds: &[bool], place: usize) -> bool {
    match holds.get(place) {
        Some(is_marked) => *is_marked,
        None => false,
    }
}

/// Does a fact fail in one of the first so many completions?
pub(crate) fn is_seen_to_fail(
    spec: &Specification,
    fact: &Fact,
    completions: &[Completion],
    count: usize,
) -> bool
    requires fact { IsPosable spec.now.relations fact.now }
    requires consistent { All (IsConsistent spec.now) completions.now }
{
    match failing(spec, fact, completions) {
        Some(place) => place < count,
        None => false,
    }
}

/// The place of the first completion in which a fact fails.
pub(crate) fn failing(
    spec: &Specification,
    fact: &Fact,
    completions: &[Completion],
) -> Option<usize>
    requires fact { IsPosable spec.now.relations fact.now }
    requires consistent { All (IsConsistent spec.now) completions.now }
    ensures { IfSome result (FailsAt spec.now.relations completions.now fact.now) }
{
    for place in 0..completions.len() {
        if !holds_in(spec, fact, &completions[place]) {
            return Some(place);
        }
    }
    None
}
