ghost use Rattle.std.specs.Prelude.{◌<◌, OnOk, length};
ghost use Rattle.forced_closure.specs.Clauses.{Adds, HasPair, HasPlace, IsCopyClause, OfCopies, OfCopy, OfPair, OfPlace};

use crate::gathered::Gathered;
use crate::origin::Origin;
use crate::subject::Subject;
use currency_base::{CopyId, NoMemory, Pair};
use entity_ground::CopiedPair;

/// Puts the clauses of the copy functions after the others: two for each of their pairs at each of their places.
pub(crate) fn add_copies(subject: &Subject<'_>, gathered: &mut Gathered) -> Result<(), NoMemory>
    ensures { OnOk result (Adds subject.now gathered.old gathered.new (OfCopies subject.now (length subject.now.spec.copies))) }
{
    for copy in 0..subject.copies() {
        add_copy(subject, CopyId(copy as u32), gathered)?;
    }
    Ok(())
}

// Puts the clauses of a copy function after the others.
fn add_copy(subject: &Subject<'_>, copy: CopyId, gathered: &mut Gathered) -> Result<(), NoMemory>
    requires { copy.0 < length subject.now.spec.copies }
    ensures { OnOk result (Adds subject.now gathered.old gathered.new (OfCopy subject.now copy)) }
{
    for place in 0..subject.copy(copy).places().len() {
        add_place(subject, copy, place as u32, gathered)?;
    }
    Ok(())
}

// Puts the clauses of a copy function's place after the others.
fn add_place(
    subject: &Subject<'_>,
    copy: CopyId,
    place: u32,
    gathered: &mut Gathered,
) -> Result<(), NoMemory>
    requires copy { copy.0 < length subject.now.spec.copies }
    requires place { HasPlace subject.now copy.0 place }
    ensures { OnOk result (Adds subject.now gathered.old gathered.new (OfPlace subject.now copy place)) }
{
    let _ = subject.spec();
    for pair in subject.pairs_of(copy) {
        push_pair(subject, copy, place, *pair, gathered)?;
    }
    Ok(())
}

// Puts the two clauses of a pair at a place after the others.
fn push_pair(
    subject: &Subject<'_>,
    copy: CopyId,
    place: u32,
    pair: CopiedPair,
    gathered: &mut Gathered,
) -> Result<(), NoMemory>
    requires copy { copy.0 < length subject.now.spec.copies }
    requires place { HasPlace subject.now copy.0 place }
    requires pair { HasPair subject.now copy.0 pair }
    ensures { OnOk result (Adds subject.now gathered.old gathered.new (OfPair copy place pair)) }
{
    let CopiedPair { first, second } = pair;
    let (from, to) = slots_at(subject, copy, place, pair);
    let forward = Origin::Copy {
        copy,
        place,
        first,
        second,
    };
    gathered.push(forward, &[from], to)?;
    let back = Origin::Back {
        copy,
        place,
        first,
        second,
    };
    gathered.push(back, &[to], from)
}

// The slots of the sources and of the mapped rows of a pair at a place.
fn slots_at(subject: &Subject<'_>, copy: CopyId, place: u32, pair: CopiedPair) -> (u32, u32)
    requires copy { copy.0 < length subject.now.spec.copies }
    requires place { HasPlace subject.now copy.0 place }
    requires pair { HasPair subject.now copy.0 pair }
    ensures { IsCopyClause subject.now copy.0 place pair.first pair.second result.0 result.1 }
{
    let _ = subject.spec();
    let map = subject.copy(copy);
    let at = *map.places().get(place as usize);
    let Some(first) = map.source_of(pair.first) else {
        unreachable!()
    };
    let Some(second) = map.source_of(pair.second) else {
        unreachable!()
    };
    let source = Pair {
        attr: at.source,
        earlier: first,
        later: second,
    };
    let target = Pair {
        attr: at.target,
        earlier: pair.first,
        later: pair.second,
    };
    (
        subject.slot(map.source(), source),
        subject.slot(map.target(), target),
    )
}
