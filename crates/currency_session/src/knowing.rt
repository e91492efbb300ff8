// A consistent completion that is known, with which a search begins.

ghost use Rattle.std.specs.Prelude.{◌≡◌, ◌<◌, length, true, All, None, Ok, IfErr, IfOk, IfSome, OnErr, OnOk, if◌then◌else◌};
ghost use Rattle.currency_session.specs.Sessions.{IsKeptReport};
ghost use Rattle.currency_session.specs.Starts.{IsStart, IsStartBefore};
ghost use Rattle.edit_checks.specs.Stays.{StaysConsistent};
ghost use Rattle.search_logs.specs.SearchLogs.{IsWithin};
ghost use Rattle.spec_edits.specs.Edits.{IsDueOf, IsEditOf, IsRefused, IsWithdrawal, edited};
ghost use Rattle.spec_model.specs.Completion.{HasShape};
ghost use Rattle.spec_model.specs.Consistent.{IsConsistent};
ghost use Rattle.spec_model.specs.Spec.{Spec};

use crate::copying::{listed_first, some_copy};
use crate::looks::has_turned;
use crate::mending::mended;
use crate::start::{Lost, RelationRow, Start, lose, with_added, with_copied};
use currency_base::{CopyId, NoMemory, RowId};
use edit_checks::{is_consistent, stays_consistent};
use report_model::Report;
use solver_guides::Guides;
use spec_edits::{Edit, EditFault, EditedSpec};
use spec_model::{Asked, Completion, Specification};
use std::alloc::Global;

/// What an edit adds; of a copied row, its target row.
#[derive(Clone, Copy)]
enum Added {
    Pair(Asked),
    Copied(RelationRow),
    Other,
    Nothing,
}

/// Does an edit, as `EditedSpec::edit` does, and puts aside a known completion which the edit may break.
pub(crate) fn edit_known(
    alloc: Global,
    spec: &mut EditedSpec,
    start: &mut Start,
    edit: Edit,
) -> Result<(), EditFault>
    requires edit { IsEditOf spec.old edit }
    requires start { IsStart spec.old start.old }
    ensures ok { OnOk result (edited spec.old edit ≡ Ok spec.new) }
    ensures due { IfErr result (IsRefused spec.old edit) }
    ensures withdrawal { IsWithdrawal edit → IfErr result (IsDueOf spec.old edit) }
    ensures err { OnErr result (spec.new ≡ spec.old) }
    ensures start { IsStart spec.new start.new }
{
    let stays = known_stays(alloc, spec.spec(), &start.known, &edit);
    let added = added_by(spec.spec(), &edit);
    match spec.edit(alloc, edit) {
        Ok(()) => {
            settle(alloc, spec.spec(), start, stays, added);
            Ok(())
        }
        Err(fault) => Err(fault),
    }
}

/// What an edit adds.
fn added_by(spec: &Specification, edit: &Edit) -> Added
    requires { IsEditOf spec.now edit.now }
{
    match edit {
        Edit::AddGiven { rel, pair } => Added::Pair(Asked {
            rel: *rel,
            pair: *pair,
        }),
        Edit::AddRule(_) => Added::Other,
        Edit::MapCopied { copy, target, .. } => Added::Copied(target_row(spec, *copy, *target)),
        _ => Added::Nothing,
    }
}

/// A row of the target relation of a copy function.
fn target_row(spec: &Specification, copy: CopyId, target: RowId) -> RelationRow
    requires { copy.0 < length spec.now.copies }
{
    RelationRow {
        rel: spec.copies()[copy.0 as usize].target(),
        row: target,
    }
}

/// Does a known completion, if there is one, stay consistent over an edit?
fn known_stays(alloc: Global, spec: &Specification, known: &Option<Completion>, edit: &Edit) -> bool
    requires edit { IsEditOf spec.now edit.now }
    requires known { IfSome known.now (IsConsistent spec.now) }
    ensures { result ≡ true → IfSome known.now (StaysConsistent spec.now edit.now) }
{
    match known {
        Some(completion) => stays_consistent(alloc, spec, edit, completion),
        None => true,
    }
}

/// What a search may start from after an edit that has added this: a known completion is lost, unless it stays. One that is
/// lost is kept for pairs and copied rows alone.
fn settle(alloc: Global, spec: &Specification, start: &mut Start, stays: bool, added: Added)
    requires { IsStartBefore spec.now stays start.old }
    ensures { IsStart spec.now start.new }
{
    match added {
        Added::Pair(asked) => settle_pair(alloc, spec, start, stays, asked),
        Added::Copied(row) => settle_copied(alloc, spec, start, stays, row),
        Added::Other => {
            keep_if(&mut start.known, stays);
            start.lost = None;
        }
        Added::Nothing => keep_if(&mut start.known, stays),
    }
}

/// The same where a pair was added.
fn settle_pair(alloc: Global, spec: &Specification, start: &mut Start, stays: bool, asked: Asked)
    requires { IsStartBefore spec.now stays start.old }
    ensures { IsStart spec.now start.new }
{
    if stays {
        put_to_lost(spec, start, asked);
    } else {
        put_aside(alloc, spec, start, asked);
    }
}

/// The pair is put to those of a lost completion.
fn put_to_lost(spec: &Specification, start: &mut Start, asked: Asked)
    requires { IsStart spec.now start.old }
    ensures { IsStart spec.now start.new }
{
    start.lost = with_added(spec, start.lost.take(), asked);
}

/// The known completion is lost by the pair.
fn put_aside(alloc: Global, spec: &Specification, start: &mut Start, asked: Asked)
    requires { IfSome start.old.known (HasShape spec.now.relations) }
    ensures { IsStart spec.now start.new }
{
    let lost = lose(alloc, start.known.take());
    start.lost = with_added(spec, lost, asked);
    start.turned = Some(asked);
}

/// The same where a copied row was added.
fn settle_copied(
    alloc: Global,
    spec: &Specification,
    start: &mut Start,
    stays: bool,
    row: RelationRow,
)
    requires { IsStartBefore spec.now stays start.old }
    ensures { IsStart spec.now start.new }
{
    if stays {
        start.lost = with_copied(start.lost.take(), row);
    } else {
        start.lost = with_copied(lose(alloc, start.known.take()), row);
    }
}

/// Drops a known completion, unless it stays.
fn keep_if(known: &mut Option<Completion>, stays: bool)
    ensures { known.new ≡ (if stays then known.old else None) }
{
    if !stays {
        *known = None;
    }
}

/// A copy of the known completion; where none is known, of a lost one that is mended, or of the first that is listed by one of
/// these reports, the newest first, and is consistent. One that has a given pair turned round is not looked at.
pub(crate) fn known_copy(
    alloc: Global,
    spec: &Specification,
    start: &mut Start,
    kept: &[Report],
    budget: u64,
    guides: &mut Guides,
) -> Result<Option<Completion>, NoMemory>
    requires within { IsWithin spec.now }
    requires start { IsStart spec.now start.old }
    requires kept { All (IsKeptReport spec.now.relations) kept.now }
    ensures found { IfOk result (λ found. IfSome found (IsConsistent spec.now)) }
    ensures start { IsStart spec.now start.new }
{
    match mend(alloc, spec, start, budget, guides) {
        Ok(()) => copy_of(alloc, spec, start, kept),
        Err(error) => Err(error),
    }
}

/// Where no completion is known, a lost one is mended, if there is one that can be.
fn mend(
    alloc: Global,
    spec: &Specification,
    start: &mut Start,
    budget: u64,
    guides: &mut Guides,
) -> Result<(), NoMemory>
    requires within { IsWithin spec.now }
    requires start { IsStart spec.now start.old }
    ensures { IsStart spec.now start.new }
{
    if start.known.is_some() {
        return Ok(());
    }
    match mended_lost(alloc, spec, &start.lost, budget, guides) {
        Ok(found) => {
            take_up(start, found);
            Ok(())
        }
        Err(error) => Err(error),
    }
}

/// A lost completion, mended, if there is one that can be.
fn mended_lost(
    alloc: Global,
    spec: &Specification,
    lost: &Option<Lost>,
    budget: u64,
    guides: &mut Guides,
) -> Result<Option<Completion>, NoMemory>
    requires within { IsWithin spec.now }
    requires lost { IfSome lost.now (λ l. HasShape spec.now.relations l.completion) }
    ensures { IfOk result (λ found. IfSome found (IsConsistent spec.now)) }
{
    match lost {
        Some(lost) => mended(alloc, spec, lost, budget, guides),
        None => Ok(None),
    }
}

/// A completion that is found is known from then on, and none is lost.
fn take_up(start: &mut Start, found: Option<Completion>)
    ensures { (s : Spec) → IfSome found (IsConsistent s) → IsStart s start.old → IsStart s start.new }
{
    if found.is_some() {
        start.known = found;
        start.lost = None;
    }
}

/// A copy of the known completion, or else of one that is listed.
fn copy_of(
    alloc: Global,
    spec: &Specification,
    start: &Start,
    kept: &[Report],
) -> Result<Option<Completion>, NoMemory>
    requires start { IsStart spec.now start.now }
    requires kept { All (IsKeptReport spec.now.relations) kept.now }
    ensures { IfOk result (λ found. IfSome found (IsConsistent spec.now)) }
{
    match &start.known {
        Some(completion) => some_copy(alloc, spec, completion),
        None => listed_copy(alloc, spec, start.turned, kept),
    }
}

/// A copy of the first completion that is listed by one of these reports, the newest first, and is consistent; none where
/// none is.
fn listed_copy(
    alloc: Global,
    spec: &Specification,
    turned: Option<Asked>,
    kept: &[Report],
) -> Result<Option<Completion>, NoMemory>
    requires { All (IsKeptReport spec.now.relations) kept.now }
    ensures { IfOk result (λ found. IfSome found (IsConsistent spec.now)) }
{
    for place in 0..kept.len() {
        match consistent_copy(alloc, spec, turned, &kept[kept.len() - 1 - place]) {
            Ok(Some(copy)) => return Ok(Some(copy)),
            Ok(None) => {}
            Err(error) => return Err(error),
        }
    }
    Ok(None)
}

/// A copy of the first completion that a report lists, if that is consistent.
fn consistent_copy(
    alloc: Global,
    spec: &Specification,
    turned: Option<Asked>,
    report: &Report,
) -> Result<Option<Completion>, NoMemory>
    requires { IsKeptReport spec.now.relations report.now }
    ensures { IfOk result (λ found. IfSome found (IsConsistent spec.now)) }
{
    if report.completions.len() == 0 || has_turned(spec, turned, report) {
        return Ok(None);
    }
    let completion = report.completions.get(0);
    match is_consistent(alloc, spec, completion) {
        Ok(true) => some_copy(alloc, spec, completion),
        Ok(false) => Ok(None),
        Err(error) => Err(error),
    }
}

/// Where no completion is known, the first that a report lists is, if it lists one.
pub(crate) fn learn(
    alloc: Global,
    spec: &Specification,
    start: &mut Start,
    report: &Report,
) -> Result<(), NoMemory>
    requires start { IsStart spec.now start.old }
    requires report { All (IsConsistent spec.now) report.now.completions }
    ensures { IsStart spec.now start.new }
{
    if start.known.is_some() {
        return Ok(());
    }
    match listed_first(alloc, spec, report) {
        Ok(found) => {
            take_up(start, found);
            Ok(())
        }
        Err(error) => Err(error),
    }
}
