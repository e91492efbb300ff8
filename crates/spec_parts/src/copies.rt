ghost use Rattle.std.specs.Prelude.{◌≡◌, ◌+◌, ◌<◌, length, IfOk, OnOk};
ghost use Rattle.copy_functions.specs.Copies.{IsCopied};
ghost use Rattle.part_laws.specs.Parts.{rows_in, IsCopyPart};
ghost use Rattle.spec_model.specs.Facts.{AreCopies};
ghost use Rattle.spec_parts.specs.Steps.{ArePartsSoFar, AreCuttable, AreClosedCopies, AreCopiesSoFar, IsCopyCut, IsCopySoFar, IsCopyCutOf, IsCopiedIn};

use crate::laws::is_specification;
use crate::place::place_of_row;
use copy_functions::CopyMap;
use currency_base::{NoMemory, RowId, Rows};
use part_places::Places;
use spec_duplicates::{or_no_memory, unmapped};
use spec_model::Specification;
use std::alloc::Global;

/// Puts a copy function of the whole, with the mapped rows that the part has, after those before it.
pub(crate) fn put_copy(
    alloc: Global,
    whole: &Specification,
    places: &Places,
    at: usize,
    part: &mut Specification,
) -> Result<(), NoMemory>
    requires within { at < length whole.now.copies }
    requires facts { AreCopies whole.now.relations whole.now.copies }
    requires cut { AreCuttable whole.now.relations places.now }
    requires closed { AreClosedCopies whole.now.copies places.now }
    requires relations { ArePartsSoFar whole.now.relations places.now (length whole.now.relations) part.old.relations }
    requires so_far { AreCopiesSoFar places.now whole.now.copies at part.old.copies }
    ensures so_far { OnOk result (AreCopiesSoFar places.now whole.now.copies (at + 1) part.new.copies) }
    ensures relations { OnOk result (part.new.relations ≡ part.old.relations) }
    ensures rules { OnOk result (part.new.rules ≡ part.old.rules) }
{
    is_specification(part);
    let copy = copy_between(alloc, &whole.copies()[at], places, part)?;
    part.add_copy(copy)
}

/// The part of a copy function, between relations of the part.
fn copy_between(
    alloc: Global,
    copy: &CopyMap,
    places: &Places,
    part: &Specification,
) -> Result<CopyMap, NoMemory>
    requires { IsCopyCutOf places.now part.now.relations copy.now }
    ensures part { IfOk result (IsCopyPart copy.now (rows_in places.now copy.now.target.0)
        (rows_in places.now copy.now.source.0)) }
    ensures copied { IfOk result (IsCopiedIn part.now.relations) }
{
    let relations = part.relations();
    let target = &relations[copy.target().0 as usize];
    let source = &relations[copy.source().0 as usize];
    copy_part(
        alloc,
        copy,
        places.rows(copy.target()),
        places.rows(copy.source()),
        &target.rows,
        &source.rows,
    )
}

/// The part of a copy function that maps these target rows, to rows among these source rows, given the rows of the part.
fn copy_part(
    alloc: Global,
    copy: &CopyMap,
    targets: &[RowId],
    sources: &[RowId],
    target_rows: &Rows,
    source_rows: &Rows,
) -> Result<CopyMap, NoMemory>
    requires { IsCopyCut copy.now targets.now sources.now target_rows.now source_rows.now }
    ensures part { IfOk result (IsCopyPart copy.now targets.now sources.now) }
    ensures copied { IfOk result (λ new. IsCopied new target_rows.now source_rows.now) }
{
    let mut new = unmapped(alloc, copy)?;
    for row in 0..targets.len() {
        let row = RowId(row as u32);
        map_row(
            alloc,
            copy,
            targets,
            sources,
            target_rows,
            source_rows,
            row,
            &mut new,
        )?;
    }
    Ok(new)
}

/// Maps a row of the part to the row that it is mapped to in the whole, if it is.
fn map_row(
    alloc: Global,
    copy: &CopyMap,
    targets: &[RowId],
    sources: &[RowId],
    target_rows: &Rows,
    source_rows: &Rows,
    row: RowId,
    new: &mut CopyMap,
) -> Result<(), NoMemory>
    requires within { row.0 < length targets.now }
    requires cut { IsCopyCut copy.now targets.now sources.now target_rows.now source_rows.now }
    requires so_far { IsCopySoFar copy.now targets.now sources.now row.0 new.old }
    ensures so_far { OnOk result (IsCopySoFar copy.now targets.now sources.now (row.0 + 1) new.new) }
    ensures copied { IsCopied new.old target_rows.now source_rows.now
        → OnOk result (IsCopied new.new target_rows.now source_rows.now) }
{
    let Some(from) = copy.source_of(targets[row.0 as usize]) else {
        return Ok(());
    };
    let source = place_of_row(sources, from);
    or_no_memory(new.add(alloc, target_rows, source_rows, row, source))
}
