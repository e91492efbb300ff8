ghost use Rattle.std.specs.Prelude.{◌≡◌, ◌+◌, ◌<◌, ◌^◌, ℕ, length, Contains, OnOk};
ghost use Rattle.part_laws.specs.Parts.{RowsAscend, IsPairPart, rows_in};
ghost use Rattle.spec_parts.specs.Index.{AreIndexed};
ghost use Rattle.spec_parts.specs.Steps.{ArePartsSoFar, AreCuttable, AreOfPart, Grows, HasPairs, HasGiven};

use crate::index::GivenIndex;
use crate::place::place_of_row;
use currency_base::{NoMemory, Pair, RelId, RowId};
use part_places::Places;
use spec_model::Specification;

/// Puts the given pairs of the part's rows into its relations. They are found by the entities of the part.
pub(crate) fn put_given(
    whole: &Specification,
    index: &GivenIndex,
    places: &Places,
    part: &mut Specification,
) -> Result<(), NoMemory>
    requires index { AreIndexed whole.now.relations index.now }
    requires cut { AreCuttable whole.now.relations places.now }
    requires so_far { ArePartsSoFar whole.now.relations places.now (length whole.now.relations) part.old.relations }
    ensures grows { OnOk result (Grows whole.now places.now part.old part.new) }
    ensures given { OnOk result ((rel : ℕ) → HasGiven whole.now places.now part.new.relations rel) }
{
    for rel in 0..whole.relations().len() {
        put_given_of(whole, index, places, RelId(rel as u32), part)?;
    }
    Ok(())
}

/// Puts those of a relation.
fn put_given_of(
    whole: &Specification,
    index: &GivenIndex,
    places: &Places,
    rel: RelId,
    part: &mut Specification,
) -> Result<(), NoMemory>
    requires within { rel.0 < length whole.now.relations }
    requires index { AreIndexed whole.now.relations index.now }
    requires cut { AreCuttable whole.now.relations places.now }
    requires so_far { ArePartsSoFar whole.now.relations places.now (length whole.now.relations) part.old.relations }
    ensures grows { OnOk result (Grows whole.now places.now part.old part.new) }
    ensures given { OnOk result (HasGiven whole.now places.now part.new.relations rel.0) }
{
    for entity in places.entities(rel) {
        put_pairs(whole, places, rel, index.of(rel, *entity), part)?;
    }
    Ok(())
}

/// Puts these pairs of a relation of the whole, each of two rows of the part.
fn put_pairs(
    whole: &Specification,
    places: &Places,
    rel: RelId,
    pairs: &[Pair],
    part: &mut Specification,
) -> Result<(), NoMemory>
    requires within { rel.0 < length whole.now.relations }
    requires cut { AreCuttable whole.now.relations places.now }
    requires pairs { AreOfPart whole.now.relations places.now rel.0 pairs.now }
    requires so_far { ArePartsSoFar whole.now.relations places.now (length whole.now.relations) part.old.relations }
    ensures grows { OnOk result (Grows whole.now places.now part.old part.new) }
    ensures added { OnOk result (HasPairs part.new.relations rel.0 (rows_in places.now rel.0) pairs.now) }
{
    for pair in pairs {
        part.add_given(rel, pair_of_part(places.rows(rel), *pair))?;
    }
    Ok(())
}

/// A pair of the whole as it is in the part.
fn pair_of_part(rows: &[RowId], pair: Pair) -> Pair
    requires few { length rows.now + 1 < 2 ^ 32 }
    requires ascend { RowsAscend rows.now }
    requires earlier { Contains rows.now pair.earlier }
    requires later { Contains rows.now pair.later }
    ensures { IsPairPart rows.now result pair }
{
    Pair {
        attr: pair.attr,
        earlier: place_of_row(rows, pair.earlier),
        later: place_of_row(rows, pair.later),
    }
}
