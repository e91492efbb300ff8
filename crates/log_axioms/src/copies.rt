ghost use Rattle.std.specs.Prelude.{◌≡◌, IfOk};
ghost use Rattle.log_axioms.specs.Axioms.{copy_clause, clause_at};

use crate::conditions::are_two;
use crate::signed::some_clause;
use crate::{Signed, SignedList};
use currency_base::{NoMemory, RowId};
use spec_model::{CopyMap, Relation};
use std::alloc::Global;

/// The clause of two mapped rows at a place of a copy function.
pub(crate) fn copy_clause(
    alloc: Global,
    copy: &CopyMap,
    place: u32,
    first: RowId,
    second: RowId,
    target: &Relation,
    source: &Relation,
) -> Result<Option<SignedList>, NoMemory>
    ensures { IfOk result (λ clause. clause ≡ copy_clause copy.now place first second target.now source.now) }
{
    let Some(first_source) = copy.source_of(first) else {
        return Ok(None);
    };
    let Some(second_source) = copy.source_of(second) else {
        return Ok(None);
    };
    let are_targets = are_two(target.rows.as_slice(), first, second);
    if !(are_targets && are_two(source.rows.as_slice(), first_source, second_source)) {
        return Ok(None);
    }
    place_clause(
        alloc,
        copy,
        place,
        first,
        second,
        first_source,
        second_source,
    )
}

// If the sources stand in this order, the rows do.
fn place_clause(
    alloc: Global,
    copy: &CopyMap,
    place: u32,
    first: RowId,
    second: RowId,
    first_source: RowId,
    second_source: RowId,
) -> Result<Option<SignedList>, NoMemory>
    ensures { IfOk result (λ clause. clause ≡ clause_at copy.now place first second first_source second_source) }
{
    match copy.places().as_slice().get(place as usize) {
        Some(at) => some_clause(
            alloc,
            &[
                Signed::not_before(copy.source(), at.source, first_source, second_source),
                Signed::before(copy.target(), at.target, first, second),
            ],
        ),
        None => Ok(None),
    }
}
