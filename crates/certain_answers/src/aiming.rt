ghost use Rattle.std.specs.Prelude.{◌≡◌, ◌<◌, length};
ghost use Rattle.certain_answers.specs.Deciding.{IsSearchFor};
ghost use Rattle.order_search.specs.Searches.{HasGone};
ghost use Rattle.refutation_log.specs.Counted.{counted_steps};

use crate::lists::bring_near;
use crate::violated::answers_of;
use answer_candidates::Candidates;
use currency_base::NoMemory;
use order_search::{Search, When};
use query_model::Query;
use solver_guides::Guides;
use spec_model::Specification;
use std::alloc::Global;
use ucq_answers::IndexedInstance;

// Where the guide that leads was told of more variables than these, it is told of no further candidate. A guide that weighs late
// conflicts more forgets the order of what it was told of long before.
const MANY: usize = 16_384;

/// Lets the guides begin from a guess in which no candidate is an answer, and tells the one that leads of the candidates from a
/// place on that are not gone: that each is none, and of its lists, which are brought in. So a model which refutes one refutes as
/// many others as it may, and what one of them comes to is found out before the next.
pub(crate) fn aim(
    alloc: Global,
    spec: &Specification,
    query: &Query,
    indexed: &IndexedInstance<'_>,
    candidates: &Candidates,
    place: u32,
    search: &mut Search<'_>,
    guides: &mut Guides,
) -> Result<(), NoMemory>
    requires search { IsSearchFor spec.now query.now search.old }
    requires marks { length candidates.now.gone ≡ length search.old.posed.answers }
    ensures gone { HasGone search.old search.new }
    ensures units { counted_steps search.new.log.steps ≡ counted_steps search.old.log.steps }
{
    match search.turn(alloc, guides) {
        Ok(()) => {}
        Err(error) => return Err(error),
    }
    // from the first guide on to the second
    guides.restart();
    let mut told: usize = 0;
    for other in place..answers_of(search) {
        if told > MANY {
            break;
        }
        match mention(
            alloc, spec, query, indexed, candidates, other, search, guides,
        ) {
            Ok(more) => told = told.saturating_add(more),
            Err(error) => return Err(error),
        }
    }
    Ok(())
}

// Tells the guide that leads of a candidate, unless it is gone, or known to be an answer: of its lists, which are brought in, and
// then of its statement. About how many variables these are.
fn mention(
    alloc: Global,
    spec: &Specification,
    query: &Query,
    indexed: &IndexedInstance<'_>,
    candidates: &Candidates,
    place: u32,
    search: &mut Search<'_>,
    guides: &mut Guides,
) -> Result<usize, NoMemory>
    requires search { IsSearchFor spec.now query.now search.old }
    requires marks { length candidates.now.gone ≡ length search.old.posed.answers }
    requires place { place < length search.old.posed.answers }
    ensures gone { HasGone search.old search.new }
    ensures units { counted_steps search.new.log.steps ≡ counted_steps search.old.log.steps }
{
    if candidates.is_gone(place as usize) || search.is_known(search.answer(place)) {
        return Ok(0);
    }
    let told = match bring_near(
        alloc,
        spec,
        query,
        indexed,
        search,
        place,
        When::Later,
        guides,
    ) {
        Ok(told) => told,
        Err(error) => return Err(error),
    };
    guides.saw(search.answer(place).var());
    Ok(told.saturating_add(1))
}
