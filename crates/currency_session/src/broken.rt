// The smallest parts in which a lost completion is broken. Nothing hangs on which these are but whether it can be mended.

ghost use Rattle.std.specs.Prelude.{◌<◌, ℕ, All, IfOk, IfSome, OnOk};
ghost use Rattle.entity_ties.specs.Labels.{AreTies};
ghost use Rattle.spec_model.specs.Completion.{HasShape};
ghost use Rattle.spec_parts.specs.Built.{AreClosedPlaces};

use crate::start::{Lost, RelationRow};
use currency_base::{NoMemory, RelId, RowId};
use edit_checks::breaks_given;
use entity_ties::Ties;
use part_places::Places;
use spec_model::{Asked, Specification};
use std::alloc::Global;

/// The places of the smallest parts, closed under copied rows, that have the rows of given pairs which a lost completion has
/// the other way round, or the target rows of copied rows that were added.
pub(crate) fn broken_places(
    alloc: Global,
    spec: &Specification,
    lost: &Lost,
) -> Result<Places, NoMemory>
    requires { HasShape spec.now.relations lost.now.completion }
    ensures { IfOk result (AreClosedPlaces spec.now) }
{
    let ties = Ties::new(alloc, spec)?;
    let parts = broken_parts(alloc, spec, &ties, lost)?;
    ties.places(alloc, spec, &parts)
}

/// The parts of these pairs and rows.
fn broken_parts(
    alloc: Global,
    spec: &Specification,
    ties: &Ties,
    lost: &Lost,
) -> Result<Vec<u32>, NoMemory>
    requires ties { AreTies spec.now ties.now }
    requires shape { HasShape spec.now.relations lost.now.completion }
    ensures { IfOk result (λ parts. All (λ part. part < ties.now.count) parts.items) }
{
    let mut parts = Vec::new(alloc);
    for asked in lost.pairs.as_slice() {
        put_broken(spec, ties, lost, *asked, &mut parts)?;
    }
    put_rows(spec, ties, lost.rows.as_slice(), &mut parts)?;
    Ok(parts)
}

/// Puts in the parts of these rows.
fn put_rows(
    spec: &Specification,
    ties: &Ties,
    rows: &[RelationRow],
    parts: &mut Vec<u32>,
) -> Result<(), NoMemory>
    requires ties { AreTies spec.now ties.now }
    requires below { All (λ part. part < ties.now.count) parts.old.items }
    ensures { OnOk result (All (λ part. part < ties.now.count) parts.new.items) }
{
    for copied in rows {
        put_row(spec, ties, copied.rel, copied.row, parts)?;
    }
    Ok(())
}

/// Puts in the part of a pair that is given, and that the completion has the other way round.
fn put_broken(
    spec: &Specification,
    ties: &Ties,
    lost: &Lost,
    asked: Asked,
    parts: &mut Vec<u32>,
) -> Result<(), NoMemory>
    requires ties { AreTies spec.now ties.now }
    requires shape { HasShape spec.now.relations lost.now.completion }
    requires below { All (λ part. part < ties.now.count) parts.old.items }
    ensures { OnOk result (All (λ part. part < ties.now.count) parts.new.items) }
{
    if breaks_given(spec, asked, &lost.completion) {
        put_row(spec, ties, asked.rel, asked.pair.earlier, parts)
    } else {
        Ok(())
    }
}

/// Puts in the part of a row, if it is there.
fn put_row(
    spec: &Specification,
    ties: &Ties,
    rel: RelId,
    row: RowId,
    parts: &mut Vec<u32>,
) -> Result<(), NoMemory>
    requires ties { AreTies spec.now ties.now }
    requires below { All (λ part. part < ties.now.count) parts.old.items }
    ensures { OnOk result (All (λ part. part < ties.now.count) parts.new.items) }
{
    match part_of_row(spec, ties, rel, row) {
        Some(part) => put(part, parts),
        None => Ok(()),
    }
}

/// The part of a row, if it is there.
fn part_of_row(spec: &Specification, ties: &Ties, rel: RelId, row: RowId) -> Option<u32>
    requires { AreTies spec.now ties.now }
    ensures { IfSome result (λ part. part < ties.now.count) }
{
    let relation = spec.relations().get(rel.0 as usize)?;
    if row.0 as usize >= relation.rows.len() {
        return None;
    }
    Some(ties.part_of(rel, relation.rows.row(row).entity))
}

/// Puts in a part.
fn put(part: u32, parts: &mut Vec<u32>) -> Result<(), NoMemory>
    ensures { (bound : ℕ) → part < bound → All (λ it. it < bound) parts.old.items
        → OnOk result (All (λ it. it < bound) parts.new.items) }
{
    parts.push(part)?;
    Ok(())
}
