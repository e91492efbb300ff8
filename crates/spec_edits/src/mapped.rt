// Rows that are mapped by copy functions, and are mapped no more.

ghost use Rattle.std.specs.Prelude.{◌≡◌, Ok, IfErr, IfOk, IfSome, OnErr, OnOk, slice_get};
ghost use Rattle.spec_edits.specs.Counted.{IsCounted};
ghost use Rattle.spec_edits.specs.Edits.{AreRowsAt, IsDueOf, IsRefused, edited, is_mapped_to};

use crate::partners::row_instances;
use crate::{Edit, EditFault};
use currency_base::{CopyId, RowId};
use spec_limits::{EntityLists, left_after};
use spec_model::Specification;
use std::alloc::Global;

/// Maps one more target row of a copy function to a source row, unless it may not be, or limit 11 is then exceeded, and
/// answers what the instances then leave of their bound. A refusal changes nothing.
pub(crate) fn map_copied(
    alloc: Global,
    spec: &mut Specification,
    lists: &EntityLists,
    left: u32,
    copy: CopyId,
    target: RowId,
    source: RowId,
) -> Result<u32, EditFault>
    requires counted { IsCounted spec.old lists.now left }
    requires rows { AreRowsAt spec.old copy.0 target source }
    ensures ok { OnOk result (edited spec.old (Edit.MapCopied copy target source) ≡ Ok spec.new) }
    ensures counted { IfOk result (IsCounted spec.new lists.now) }
    ensures due { IfErr result (IsRefused spec.old (Edit.MapCopied copy target source)) }
    ensures err { OnErr result (spec.new ≡ spec.old) }
{
    // What is refused is found out before anything changes: to unmap a row again may leave a longer list.
    spec.check_copied(alloc, copy, target, source)?;
    let more = row_instances(spec, lists, copy, target, source);
    let Some(rest) = left_after(left, more) else {
        return Err(EditFault::Limit(11));
    };
    spec.map_copied(alloc, copy, target, source)?;
    Ok(rest)
}

/// Unmaps a target row of a copy function, if it is mapped to this source row, and answers what the instances then leave of
/// their bound. Takes no memory.
pub(crate) fn unmap_copied(
    spec: &mut Specification,
    lists: &EntityLists,
    left: u32,
    copy: CopyId,
    target: RowId,
    source: RowId,
) -> Result<u32, EditFault>
    requires counted { IsCounted spec.old lists.now left }
    requires rows { AreRowsAt spec.old copy.0 target source }
    ensures ok { OnOk result (edited spec.old (Edit.UnmapCopied copy target source) ≡ Ok spec.new) }
    ensures counted { IfOk result (IsCounted spec.new lists.now) }
    ensures due { IfErr result (IsDueOf spec.old (Edit.UnmapCopied copy target source)) }
    ensures err { OnErr result (spec.new ≡ spec.old) }
{
    if !is_mapped_to(spec, copy, target, source) {
        return Err(EditFault::NotThere);
    }
    let less = row_instances(spec, lists, copy, target, source);
    let _ = spec.withdraw_copied(copy, target);
    Ok(left + less as u32)
}

/// Does a copy function map a target row to this source row?
fn is_mapped_to(spec: &Specification, copy: CopyId, target: RowId, source: RowId) -> bool
    requires { AreRowsAt spec.now copy.0 target source }
    ensures { IfSome (slice_get spec.now.copies copy.0) (λ c. result ≡ is_mapped_to c target source) }
{
    match spec.copies()[copy.0 as usize].source_of(target) {
        Some(row) => row.0 == source.0,
        None => false,
    }
}
