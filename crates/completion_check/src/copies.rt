ghost use Rattle.std.specs.Prelude.{◌≡◌, All, length, OnOk, IfErr, IfSome, IfNone};
ghost use Rattle.entity_rows.specs.Members.{AreEntityRows};
ghost use Rattle.copy_functions.specs.Copies.{IsCopied};
ghost use Rattle.spec_model.specs.Facts.{IsRelation, AreRelations, IsPlaceBetween, IsCopyAmong, AreCopies};
ghost use Rattle.completion_check.specs.CopyBreaks.{NoPlaceBreaks, IsFirstPlaceBreak, tried_between, NoneBreaksCopy, BreaksCopyFirst, NoCopyBreaks};
ghost use Rattle.completion_check.specs.Flaws.{IsCopyFlaw};
ghost use Rattle.completion_check.specs.Room.{HasPlaces, HasAllPlaces, HasMembers};

use crate::copy_search::{BrokenPlace, first_broken};
use crate::copy_trial::CopyTrial;
use crate::relations::RelationPlaces;
use currency_base::{CopyId, RowList};
use entity_rows::EntityRows;
use spec_model::{CopyMap, Flaw, Relation};

/// Do all mapped rows keep the order of their sources, for each copy function? Takes no memory.
pub(crate) fn check_copies(
    relations: &[Relation],
    copies: &[CopyMap],
    places: &[RelationPlaces],
    members: &[EntityRows],
) -> Result<(), Flaw>
    requires relations { AreRelations relations.now }
    requires copies { AreCopies relations.now copies.now }
    requires places { HasAllPlaces relations.now places.now }
    requires members { HasMembers relations.now members.now }
    ensures ok { OnOk result (NoCopyBreaks relations.now copies.now places.now) }
    ensures err { IfErr result (IsCopyFlaw relations.now copies.now places.now) }
{
    for (at, copy) in copies.iter().enumerate() {
        if let Some(broken) = broken_copy(copy, relations, places, members) {
            return Err(Flaw::CopyBroken {
                copy: CopyId(at as u32),
                place: broken.place,
                first: broken.first,
                second: broken.second,
            });
        }
    }
    Ok(())
}

// The first place and the first two rows that break a copy function between two of the relations.
fn broken_copy(
    copy: &CopyMap,
    relations: &[Relation],
    places: &[RelationPlaces],
    members: &[EntityRows],
) -> Option<BrokenPlace>
    requires relations { AreRelations relations.now }
    requires copy { IsCopyAmong relations.now copy.now }
    requires places { HasAllPlaces relations.now places.now }
    requires members { HasMembers relations.now members.now }
    ensures none { IfNone result (NoneBreaksCopy relations.now places.now copy.now) }
    ensures some { IfSome result (λ b. BreaksCopyFirst relations.now places.now copy.now b.place b.first b.second) }
{
    let target = copy.target().0 as usize;
    let source = copy.source().0 as usize;
    let own = members[target].as_slice();
    broken_between(
        copy,
        &relations[target],
        &relations[source],
        &places[target],
        &places[source],
        own,
    )
}

// The same of a copy function between these two relations, whose rows have these places.
fn broken_between(
    copy: &CopyMap,
    target: &Relation,
    source: &Relation,
    target_places: &RelationPlaces,
    source_places: &RelationPlaces,
    members: &[RowList],
) -> Option<BrokenPlace>
    requires places { All (IsPlaceBetween target.now source.now) copy.now.places }
    requires copied { IsCopied copy.now target.now.rows source.now.rows }
    requires target { IsRelation target.now }
    requires target_places { HasPlaces target.now target_places.now }
    requires source_places { HasPlaces source.now source_places.now }
    requires members { AreEntityRows target.now.rows (length target.now.entities) members.now }
    ensures none { IfNone result (NoPlaceBreaks (tried_between copy.now target.now source.now target_places.now
        source_places.now)) }
    ensures some { IfSome result (λ b. IsFirstPlaceBreak
        (tried_between copy.now target.now source.now target_places.now source_places.now) b.place b.first b.second) }
{
    let trial = CopyTrial {
        copy,
        target_rows: target.rows.as_slice(),
        source_rows: source.rows.as_slice(),
        target_places,
        source_places,
    };
    first_broken(&trial, members)
}
