// A look at one more mapped row.

ghost use Rattle.std.specs.Prelude.{◌≡◌, ℕ, Contains, Some, slice_get, true};
ghost use Rattle.currency_base.specs.declared.ids.RowId.{RowId};
ghost use Rattle.edit_checks.specs.Mapped.{AreRowsOf, KeepsBoth, KeepsOrder, KeepsPlace, KeepsPlaces, KeepsRow};
ghost use Rattle.edit_checks.specs.Stays.{StaysConsistent};
ghost use Rattle.spec_edits.specs.Edits.{AreRowsAt};
ghost use Rattle.spec_model.specs.Completion.{IsCompletion};
ghost use Rattle.spec_model.specs.Consistent.{IsConsistent};
ghost use Rattle.spec_model.specs.Facts.{IsCopyAmong};

use crate::pairs::stands_before;
use currency_base::{CopyId, Pair, RowId};
use spec_edits::Edit;
use spec_model::{Asked, Completion, CopyMap, Place, Specification};

/// A row of a copy function's target relation, and the row of its source relation that it is mapped to.
#[derive(Clone, Copy)]
pub(crate) struct CopiedRow {
    pub target: RowId,
    pub source: RowId,
}

/// Does a consistent completion stay one where one more row is mapped: has it the row and each mapped row of its entity in the
/// order of their sources, at each place? `false` says nothing. Takes no memory.
pub(crate) fn keeps_mapped(
    spec: &Specification,
    completion: &Completion,
    copy: CopyId,
    copied: CopiedRow,
) -> bool
    requires rows { AreRowsAt spec.now copy.0 copied.target copied.source }
    requires consistent { IsConsistent spec.now completion.now }
    ensures { result ≡ true → StaysConsistent spec.now (Edit.MapCopied copy copied.target copied.source) completion.now }
{
    let map = &spec.copies()[copy.0 as usize];
    keeps_places(spec, completion, map, copied)
}

/// The same at the places of this copy function.
fn keeps_places(
    spec: &Specification,
    completion: &Completion,
    map: &CopyMap,
    copied: CopiedRow,
) -> bool
    requires completion { IsCompletion spec.now.relations completion.now }
    requires copy { IsCopyAmong spec.now.relations map.now }
    requires rows { AreRowsOf spec.now.relations map.now copied }
    ensures { result ≡ true → KeepsPlaces spec.now.relations completion.now map.now copied }
{
    for place in map.places().as_slice() {
        if !keeps_place(spec, completion, map, copied, *place) {
            return false;
        }
    }
    true
}

/// The same at one place.
fn keeps_place(
    spec: &Specification,
    completion: &Completion,
    map: &CopyMap,
    copied: CopiedRow,
    place: Place,
) -> bool
    requires completion { IsCompletion spec.now.relations completion.now }
    requires copy { IsCopyAmong spec.now.relations map.now }
    requires rows { AreRowsOf spec.now.relations map.now copied }
    requires place { Contains map.now.places place }
    ensures { result ≡ true → KeepsPlace spec.now.relations completion.now map.now copied place }
{
    let rel = map.target();
    let relation = &spec.relations()[rel.0 as usize];
    let ent = relation.rows.row(copied.target).entity;
    let list = completion.ranking(rel, place.target, ent);
    keeps_rows(spec, completion, map, copied, place, list)
}

/// The same of each of these rows.
fn keeps_rows(
    spec: &Specification,
    completion: &Completion,
    map: &CopyMap,
    copied: CopiedRow,
    place: Place,
    list: &[RowId],
) -> bool
    requires completion { IsCompletion spec.now.relations completion.now }
    requires copy { IsCopyAmong spec.now.relations map.now }
    requires rows { AreRowsOf spec.now.relations map.now copied }
    requires place { Contains map.now.places place }
    ensures { result ≡ true → (at : ℕ) (other : RowId) → slice_get list.now at ≡ Some other
        → KeepsRow completion.now map.now place copied other }
{
    for other in list {
        if !keeps_row(spec, completion, map, copied, place, *other) {
            return false;
        }
    }
    true
}

/// The same of one row, if it is mapped.
fn keeps_row(
    spec: &Specification,
    completion: &Completion,
    map: &CopyMap,
    copied: CopiedRow,
    place: Place,
    other: RowId,
) -> bool
    requires completion { IsCompletion spec.now.relations completion.now }
    requires copy { IsCopyAmong spec.now.relations map.now }
    requires rows { AreRowsOf spec.now.relations map.now copied }
    requires place { Contains map.now.places place }
    ensures { result ≡ true → KeepsRow completion.now map.now place copied other }
{
    match map.source_of(other) {
        Some(source) => {
            let partner = CopiedRow {
                target: other,
                source,
            };
            keeps_both(spec, completion, map, place, copied, partner)
        }
        None => true,
    }
}

/// Has a completion two mapped rows in the order of their sources at a place, whichever comes first?
fn keeps_both(
    spec: &Specification,
    completion: &Completion,
    map: &CopyMap,
    place: Place,
    copied: CopiedRow,
    partner: CopiedRow,
) -> bool
    requires completion { IsCompletion spec.now.relations completion.now }
    requires copy { IsCopyAmong spec.now.relations map.now }
    requires place { Contains map.now.places place }
    requires rows { AreRowsOf spec.now.relations map.now copied }
    requires partner { AreRowsOf spec.now.relations map.now partner }
    ensures { result ≡ true → KeepsBoth completion.now map.now place copied partner }
{
    if !keeps_order(spec, completion, map, place, copied, partner) {
        return false;
    }
    keeps_order(spec, completion, map, place, partner, copied)
}

/// The same where the first one's source stands before the second one's.
fn keeps_order(
    spec: &Specification,
    completion: &Completion,
    map: &CopyMap,
    place: Place,
    first: CopiedRow,
    second: CopiedRow,
) -> bool
    requires completion { IsCompletion spec.now.relations completion.now }
    requires copy { IsCopyAmong spec.now.relations map.now }
    requires place { Contains map.now.places place }
    requires first { AreRowsOf spec.now.relations map.now first }
    requires second { AreRowsOf spec.now.relations map.now second }
    ensures { result ≡ true → KeepsOrder completion.now map.now place first second }
{
    let sources = Asked {
        rel: map.source(),
        pair: Pair {
            attr: place.source,
            earlier: first.source,
            later: second.source,
        },
    };
    let targets = Asked {
        rel: map.target(),
        pair: Pair {
            attr: place.target,
            earlier: first.target,
            later: second.target,
        },
    };
    if !stands_before(spec, completion, sources) {
        return true;
    }
    stands_before(spec, completion, targets)
}
