ghost use Rattle.std.specs.Prelude.{◌≡◌, ◌+◌, ◌<◌, [], length, IfOk, OnOk};
ghost use Rattle.spec_model.specs.Facts.{AreCopies};
ghost use Rattle.spec_parts.specs.Built.{AreClosedPlaces, IsBuilt};
ghost use Rattle.spec_parts.specs.Index.{AreIndexed};
ghost use Rattle.spec_parts.specs.Steps.{ArePartsSoFar, AreCuttable, AreClosedCopies, AreCopiesSoFar};

use crate::copies::put_copy;
use crate::given::put_given;
use crate::index::GivenIndex;
use crate::laws::is_specification;
use crate::relation::part_relation;
use crate::rule::put_rules;
use currency_base::{NoMemory, RelId};
use part_places::Places;
use spec_model::Specification;
use std::alloc::Global;

/// The part of these places: the same relations, rules and copy functions, with the rows, given pairs and mapped rows
/// of its entities, numbered anew. Takes time in proportion to the part (times a logarithm), beside the relations' and
/// rules' own texts.
pub fn part(
    alloc: Global,
    spec: &Specification,
    given: &GivenIndex,
    places: &Places,
) -> Result<Specification, NoMemory>
    requires index { AreIndexed spec.now.relations given.now }
    requires places { AreClosedPlaces spec.now places.now }
    ensures { IfOk result (IsBuilt spec.now places.now) }
{
    let mut part = Specification::new(alloc);
    match fill(alloc, spec, given, places, &mut part) {
        Ok(()) => Ok(part),
        Err(NoMemory) => {
            discard(part);
            Err(NoMemory)
        }
    }
}

/// Lets a part go that is not whole.
fn discard(part: Specification) {}

/// Makes a specification with nothing in it the part of these places.
fn fill(
    alloc: Global,
    whole: &Specification,
    given: &GivenIndex,
    places: &Places,
    part: &mut Specification,
) -> Result<(), NoMemory>
    requires index { AreIndexed whole.now.relations given.now }
    requires places { AreClosedPlaces whole.now places.now }
    requires nothing { part.old ≡ record { relations = []; rules = []; copies = [] } }
    ensures { OnOk result (IsBuilt whole.now places.now part.new) }
{
    is_specification(whole);
    put_relations(alloc, whole, places, part)?;
    put_given(whole, given, places, part)?;
    put_rules(alloc, whole, part)?;
    put_copies(alloc, whole, places, part)
}

/// Puts the relations, with no given pair yet, into a part that has none.
fn put_relations(
    alloc: Global,
    whole: &Specification,
    places: &Places,
    part: &mut Specification,
) -> Result<(), NoMemory>
    requires cut { AreCuttable whole.now.relations places.now }
    requires nothing { part.old.relations ≡ [] }
    ensures so_far { OnOk result (ArePartsSoFar whole.now.relations places.now (length whole.now.relations) part.new.relations) }
    ensures rules { OnOk result (part.new.rules ≡ part.old.rules) }
    ensures copies { OnOk result (part.new.copies ≡ part.old.copies) }
{
    for rel in 0..whole.relations().len() {
        put_relation(alloc, whole, places, RelId(rel as u32), part)?;
    }
    Ok(())
}

/// Puts a relation after those before it.
fn put_relation(
    alloc: Global,
    whole: &Specification,
    places: &Places,
    rel: RelId,
    part: &mut Specification,
) -> Result<(), NoMemory>
    requires within { rel.0 < length whole.now.relations }
    requires cut { AreCuttable whole.now.relations places.now }
    requires so_far { ArePartsSoFar whole.now.relations places.now rel.0 part.old.relations }
    ensures so_far { OnOk result (ArePartsSoFar whole.now.relations places.now (rel.0 + 1) part.new.relations) }
    ensures rules { OnOk result (part.new.rules ≡ part.old.rules) }
    ensures copies { OnOk result (part.new.copies ≡ part.old.copies) }
{
    let relation = &whole.relations()[rel.0 as usize];
    let cut = part_relation(alloc, relation, places.rows(rel), places.entities(rel))?;
    part.add_relation(cut)
}

/// Puts the copy functions into a part that has none, but all relations.
fn put_copies(
    alloc: Global,
    whole: &Specification,
    places: &Places,
    part: &mut Specification,
) -> Result<(), NoMemory>
    requires facts { AreCopies whole.now.relations whole.now.copies }
    requires cut { AreCuttable whole.now.relations places.now }
    requires closed { AreClosedCopies whole.now.copies places.now }
    requires relations { ArePartsSoFar whole.now.relations places.now (length whole.now.relations) part.old.relations }
    requires nothing { part.old.copies ≡ [] }
    ensures so_far { OnOk result (AreCopiesSoFar places.now whole.now.copies (length whole.now.copies) part.new.copies) }
    ensures relations { OnOk result (part.new.relations ≡ part.old.relations) }
    ensures rules { OnOk result (part.new.rules ≡ part.old.rules) }
{
    for at in 0..whole.copies().len() {
        put_copy(alloc, whole, places, at, part)?;
    }
    Ok(())
}
