ghost use Rattle.std.specs.Prelude.{◌≡◌, ◌+◌, ◌<◌, ◌≤◌, ◌^◌, length, IfOk, OnOk};
ghost use Rattle.copy_functions.specs.Copies.{source_at, IsCopied};
ghost use Rattle.spec_model.specs.Facts.{AreRelations, IsCopyAmong};
ghost use Rattle.kept_items.specs.Marked.{is_marked};
ghost use Rattle.kept_items.specs.Steps.{copied_count, mapped_count, marked_copy, marked_rows, one_if, with_row};

use crate::marks::take_mark;
use copy_functions::CopyMap;
use currency_base::{NoMemory, RowId, Rows};
use spec_duplicates::{or_no_memory, unmapped};
use spec_model::Relation;
use std::alloc::Global;

/// The copy function, between these relations, with its mapped rows that are marked. Goes on past the marks of all mapped rows.
pub(crate) fn kept_copy(
    alloc: Global,
    relations: &[Relation],
    copy: &CopyMap,
    marks: &[bool],
    at: &mut usize,
) -> Result<CopyMap, NoMemory>
    requires relations { AreRelations relations.now }
    requires among { IsCopyAmong relations.now copy.now }
    requires marks { at.old + copied_count relations.now copy.now ≤ length marks.now }
    ensures kept { IfOk result (λ kept. kept ≡ marked_copy relations.now marks.now at.old copy.now) }
    ensures next { OnOk result (at.new ≡ at.old + copied_count relations.now copy.now) }
{
    let target = &relations[copy.target().0 as usize];
    let source = &relations[copy.source().0 as usize];
    map_rows(alloc, copy, &target.rows, &source.rows, marks, at)
}

/// The copy function, between tables of these rows, with its mapped rows that are marked.
fn map_rows(
    alloc: Global,
    copy: &CopyMap,
    target_rows: &Rows,
    source_rows: &Rows,
    marks: &[bool],
    at: &mut usize,
) -> Result<CopyMap, NoMemory>
    requires few { length target_rows.now < 2 ^ 32 }
    requires copied { IsCopied copy.now target_rows.now source_rows.now }
    requires marks { at.old + mapped_count copy.now (length target_rows.now) ≤ length marks.now }
    ensures kept { IfOk result (λ kept. kept ≡ marked_rows marks.now at.old copy.now (length target_rows.now)) }
    ensures next { OnOk result (at.new ≡ at.old + mapped_count copy.now (length target_rows.now)) }
{
    let mut kept = unmapped(alloc, copy)?;
    for row in 0..target_rows.len() {
        map_row(
            alloc,
            copy,
            target_rows,
            source_rows,
            RowId(row as u32),
            marks,
            at,
            &mut kept,
        )?;
    }
    Ok(kept)
}

/// Maps a row as it is mapped in the whole, if it is and is marked. An unmapped row has no mark.
fn map_row(
    alloc: Global,
    copy: &CopyMap,
    target_rows: &Rows,
    source_rows: &Rows,
    row: RowId,
    marks: &[bool],
    at: &mut usize,
    kept: &mut CopyMap,
) -> Result<(), NoMemory>
    requires copied { IsCopied copy.now target_rows.now source_rows.now }
    requires places { kept.old.places ≡ copy.now.places }
    requires marks { at.old + one_if (source_at copy.now row) ≤ length marks.now }
    ensures kept { OnOk result (kept.new ≡ with_row (source_at copy.now row) (is_marked marks.now at.old) row kept.old) }
    ensures next { OnOk result (at.new ≡ at.old + one_if (source_at copy.now row)) }
{
    let Some(source) = copy.source_of(row) else {
        return Ok(());
    };
    if !take_mark(marks, at) {
        return Ok(());
    }
    or_no_memory(kept.add(alloc, target_rows, source_rows, row, source))
}
