ghost use Rattle.std.specs.Prelude.{◌≡◌, ◌+◌, ◌^◌, ◌<◌, length, All, IfSome, IfNone};
ghost use Rattle.entity_rows.specs.Members.{AreEntityRows};
ghost use Rattle.completion_check.specs.CopyBreaks.{IsPlaceAmong, NoPartner, IsFirstPartner, NoPairBreaks, IsFirstPairBreak, NoPlaceBreaks, IsFirstPlaceBreak};

use crate::copy_trial::CopyTrial;
use crate::search::rows_of;
use currency_base::{RowId, RowList};
use spec_model::Place;

/// A place of a copy function, counted from 0, and two rows that break it.
#[derive(Clone, Copy)]
pub(crate) struct BrokenPlace {
    pub place: u32,
    pub first: RowId,
    pub second: RowId,
}

/// The first place of the copy function that two rows of one entity break, and the first such rows: by the
/// first of the two, and then by the second.
pub(crate) fn first_broken(trial: &CopyTrial, members: &[RowList]) -> Option<BrokenPlace>
    requires few { length trial.now.target_rows + 1 < 2 ^ 32 }
    requires members { AreEntityRows trial.now.target_rows (length members.now) members.now }
    requires entities { All (λ row. row.entity.0 < length members.now) trial.now.target_rows }
    ensures none { IfNone result (NoPlaceBreaks trial.now) }
    ensures some { IfSome result (λ b. IsFirstPlaceBreak trial.now b.place b.first b.second) }
{
    for (at, place) in trial.places().iter().enumerate() {
        if let Some((first, second)) = first_pair(trial, place, members) {
            return Some(BrokenPlace {
                place: at as u32,
                first,
                second,
            });
        }
    }
    None
}

// The first two rows of one entity that break a place.
fn first_pair(trial: &CopyTrial, place: &Place, members: &[RowList]) -> Option<(RowId, RowId)>
    requires few { length trial.now.target_rows + 1 < 2 ^ 32 }
    requires place { IsPlaceAmong (length trial.now.target_places) (length trial.now.source_places) place.now }
    requires members { AreEntityRows trial.now.target_rows (length members.now) members.now }
    requires entities { All (λ row. row.entity.0 < length members.now) trial.now.target_rows }
    ensures none { IfNone result (NoPairBreaks trial.now place.now) }
    ensures some { IfSome result (λ rows. IsFirstPairBreak trial.now place.now rows.0 rows.1) }
{
    for (at, row) in trial.target_rows().iter().enumerate() {
        let own = rows_of(members, row.entity);
        let first = RowId(at as u32);
        if let Some(second) = first_partner(trial, place, first, own) {
            return Some((first, second));
        }
    }
    None
}

// The first of these rows that breaks a place as the second of two, after a given first.
fn first_partner(trial: &CopyTrial, place: &Place, first: RowId, members: &[RowId]) -> Option<RowId>
    requires { IsPlaceAmong (length trial.now.target_places) (length trial.now.source_places) place.now }
    ensures none { IfNone result (NoPartner trial.now place.now first members.now) }
    ensures some { IfSome result (IsFirstPartner trial.now place.now first members.now) }
{
    if !trial.is_mapped(first) {
        return None;
    }
    for second in members {
        if trial.breaks(place, first, *second) {
            return Some(*second);
        }
    }
    None
}
