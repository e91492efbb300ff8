ghost use Rattle.std.specs.Prelude.{◌<◌, All, OnOk, length, slice_get};
ghost use Rattle.entity_ground.specs.Grounds.{AreCopyGrounds};
ghost use Rattle.order_clauses.specs.Added.{Adds};
ghost use Rattle.order_clauses.specs.Listing.{copy_in, copy_label, copy_labels, copy_place};
ghost use Rattle.order_clauses.specs.Subject.{IsCopiedBy, IsPlaceOf};

use crate::pushing::push_axiom;
use crate::sayings::Sayings;
use currency_base::{CopyId, ItemList, Lit, NoMemory};
use entity_ground::{CopiedPair, CopiedPairList};
use refutation_log::{LabelRef, Steps};

/// Puts the axioms of the copy functions after the steps: for each of their places and each pair of rows that
/// were copied together.
pub(crate) fn copied(
    sayings: &Sayings<'_>,
    steps: &mut Steps,
    distinct: &mut Vec<Lit>,
    grounds: &ItemList<CopiedPairList>,
) -> Result<(), NoMemory>
    requires { AreCopyGrounds sayings.now.spec grounds.now }
    ensures { OnOk result (Adds sayings.now (copy_labels sayings.now.spec grounds.now) steps.old steps.new) }
{
    for k in 0..sayings.copies() {
        let pairs = grounds.get(k).as_slice();
        copied_by(sayings, steps, distinct, CopyId(k as u32), pairs)?;
    }
    Ok(())
}

// Those of one copy function.
fn copied_by(
    sayings: &Sayings<'_>,
    steps: &mut Steps,
    distinct: &mut Vec<Lit>,
    copy: CopyId,
    pairs: &[CopiedPair],
) -> Result<(), NoMemory>
    requires within { copy.0 < length sayings.now.spec.copies }
    requires pairs { All (IsCopiedBy sayings.now.spec copy.0) pairs.now }
    ensures { OnOk result (Adds sayings.now (copy_in copy pairs.now (slice_get sayings.now.spec.copies copy.0))
        steps.old steps.new) }
{
    for place in 0..sayings.copy(copy).places().len() {
        copied_at(sayings, steps, distinct, copy, place as u32, pairs)?;
    }
    Ok(())
}

// Those of one place.
fn copied_at(
    sayings: &Sayings<'_>,
    steps: &mut Steps,
    distinct: &mut Vec<Lit>,
    copy: CopyId,
    place: u32,
    pairs: &[CopiedPair],
) -> Result<(), NoMemory>
    requires within { copy.0 < length sayings.now.spec.copies }
    requires place { IsPlaceOf sayings.now.spec copy.0 place }
    requires pairs { All (IsCopiedBy sayings.now.spec copy.0) pairs.now }
    ensures { OnOk result (Adds sayings.now (copy_place copy pairs.now place) steps.old steps.new) }
{
    for pair in pairs {
        push_copy(sayings, steps, distinct, copy, place, *pair)?;
    }
    Ok(())
}

// That of one pair of rows.
fn push_copy(
    sayings: &Sayings<'_>,
    steps: &mut Steps,
    distinct: &mut Vec<Lit>,
    copy: CopyId,
    place: u32,
    pair: CopiedPair,
) -> Result<(), NoMemory>
    requires within { copy.0 < length sayings.now.spec.copies }
    requires place { IsPlaceOf sayings.now.spec copy.0 place }
    requires pair { IsCopiedBy sayings.now.spec copy.0 pair }
    ensures { OnOk result (Adds sayings.now (copy_label copy place pair) steps.old steps.new) }
{
    let map = sayings.copy(copy);
    let at = *map.places().get(place as usize);
    let Some(first) = map.source_of(pair.first) else {
        unreachable!()
    };
    let Some(second) = map.source_of(pair.second) else {
        unreachable!()
    };
    let supposed = sayings.not_before(map.source(), at.source, first, second);
    let concluded = sayings.before(map.target(), at.target, pair.first, pair.second);
    let label = LabelRef::Copy {
        copy,
        place,
        first: pair.first,
        second: pair.second,
    };
    push_axiom(sayings, steps, distinct, label, &[supposed, concluded])
}
