ghost use Rattle.std.specs.Prelude.{◌+◌, ◌<◌, ◌≡◌, [], IfOk};
ghost use Rattle.entity_ties.specs.Labels.{AreTies};
ghost use Rattle.search_logs.specs.SearchLogs.{IsWithin};
ghost use Rattle.spec_parts.specs.Index.{AreIndexed};
ghost use Rattle.part_conflicts.specs.Conflicts.{AreConflicts, AreConflictsUpTo, IsSmallest};
ghost use Rattle.part_conflicts.specs.Steps.{AreDecidedTo};

use crate::alone::decide_alone;
use crate::found::{ConflictList, Found};
use crate::laws::is_specification;
use currency_base::NoMemory;
use entity_ties::Ties;
use part_limits::parts_are_within;
use solver_guides::Guides;
use spec_model::Specification;
use spec_parts::{GivenIndex, part};
use std::alloc::Global;

/// Decides each smallest part of a specification that is closed under copied rows by itself, one after the other, and
/// explains each inconsistent one. Each question that is put on the way has the budget of clauses that may be learned,
/// and the first for which it is spent ends the search. The guides steer the search, whatever they pick. Beside the
/// questions it takes time in proportion to the specification (times a logarithm), and for each part to the relations,
/// rules and copy functions. It is refused for want of memory, which also comes where there are 2^32 parts or more.
pub fn conflicts(
    alloc: Global,
    spec: &Specification,
    budget: u64,
    guides: &mut Guides,
) -> Result<Found, NoMemory>
    requires within { IsWithin spec.now }
    ensures { IfOk result (AreConflicts spec.now budget) }
{
    let ties = Ties::new(alloc, spec)?;
    let given = GivenIndex::new(alloc, spec)?;
    let mut found = ConflictList::new(alloc);
    match decide_each(alloc, spec, &ties, &given, budget, guides, &mut found) {
        Ok(None) => Ok(Found::All(found)),
        Ok(Some(stopped)) => Ok(stopped),
        Err(NoMemory) => Err(NoMemory),
    }
}

/// Decides each smallest part, and lists the inconsistent ones; or stops where the budget is spent.
fn decide_each(
    alloc: Global,
    spec: &Specification,
    ties: &Ties,
    given: &GivenIndex,
    budget: u64,
    guides: &mut Guides,
    found: &mut ConflictList,
) -> Result<Option<Found>, NoMemory>
    requires within { IsWithin spec.now }
    requires ties { AreTies spec.now ties.now }
    requires given { AreIndexed spec.now.relations given.now }
    requires none { found.old ≡ [] }
    ensures { IfOk result (AreDecidedTo spec.now ties.now budget ties.now.count found.new) }
{
    let Ok(count) = u32::try_from(ties.count()) else {
        return Err(NoMemory);
    };
    for number in 0..count {
        if let Some(stopped) = decide(alloc, spec, ties, given, number, budget, guides, found)? {
            return Ok(Some(stopped));
        }
    }
    Ok(None)
}

/// Decides the smallest part of this number, where those before it are.
fn decide(
    alloc: Global,
    spec: &Specification,
    ties: &Ties,
    given: &GivenIndex,
    number: u32,
    budget: u64,
    guides: &mut Guides,
    found: &mut ConflictList,
) -> Result<Option<Found>, NoMemory>
    requires within { IsWithin spec.now }
    requires ties { AreTies spec.now ties.now }
    requires given { AreIndexed spec.now.relations given.now }
    requires number { number < ties.now.count }
    requires earlier { AreConflictsUpTo spec.now ties.now number found.old }
    ensures { IfOk result (AreDecidedTo spec.now ties.now budget (number + 1) found.new) }
{
    parts_are_within();
    let part = smallest(alloc, spec, ties, given, number)?;
    is_specification(&part);
    decide_alone(alloc, part, budget, guides, found)
}

/// The smallest part of this number, as a specification of its own.
fn smallest(
    alloc: Global,
    spec: &Specification,
    ties: &Ties,
    given: &GivenIndex,
    number: u32,
) -> Result<Specification, NoMemory>
    requires ties { AreTies spec.now ties.now }
    requires given { AreIndexed spec.now.relations given.now }
    requires number { number < ties.now.count }
    ensures { IfOk result (IsSmallest spec.now ties.now number) }
{
    let places = ties.places(alloc, spec, &[number])?;
    part(alloc, spec, given, &places)
}
