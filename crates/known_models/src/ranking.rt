ghost use Rattle.std.specs.Prelude.{◌≡◌, ◌<◌, All, Some, length, IfOk, OnOk, slice_get};
ghost use Rattle.spec_model.specs.declared.relation.Relation.{Relation};
ghost use Rattle.entity_ties.specs.Labels.{cell, label_of};
ghost use Rattle.known_models.specs.Known.{variables_in};
ghost use Rattle.known_models.specs.Ranked.{AreFound, FindsAll, FindsList, FindsLists, FindsPart};

use crate::draft::Draft;
use crate::parted::PartedSpec;
use completion_build::CycleList;
use currency_base::{Assignment, AttrId, ItemList, NoMemory};
use entity_ties::Member;
use std::alloc::Global;

/// What truths say of the lists of a part. Takes time in proportion to the pairs of rows of one entity of the part in each
/// attribute.
pub(crate) fn rank_part(
    alloc: Global,
    parted: &PartedSpec<'_>,
    part: u32,
    truths: &Assignment,
) -> Result<Draft, NoMemory>
    requires part { part < length parted.now.parts }
    requires truths { length truths.now ≡ length (variables_in parted.now) }
    ensures { IfOk result (FindsPart parted.now part truths.now) }
{
    let mut draft = Draft {
        lists: ItemList::new(alloc),
        cycles: CycleList::new(alloc),
    };
    rank_members(
        alloc,
        parted,
        part,
        truths,
        parted.members(part),
        &mut draft,
    )?;
    Ok(draft)
}

// What they say of the lists of some entities of the part.
fn rank_members(
    alloc: Global,
    parted: &PartedSpec<'_>,
    part: u32,
    truths: &Assignment,
    members: &[Member],
    draft: &mut Draft,
) -> Result<(), NoMemory>
    requires truths { length truths.now ≡ length (variables_in parted.now) }
    requires members { All (λ m. label_of parted.now.ties (cell m.rel.0 m.ent.0) ≡ Some part) members.now }
    requires found { AreFound parted.now part truths.now draft.old }
    ensures { OnOk result (FindsAll parted.now part truths.now members.now draft.new) }
{
    parted.facts();
    for member in members {
        rank_entity(alloc, parted, part, truths, *member, draft)?;
    }
    Ok(())
}

// What they say of the lists of an entity of the part.
fn rank_entity(
    alloc: Global,
    parted: &PartedSpec<'_>,
    part: u32,
    truths: &Assignment,
    member: Member,
    draft: &mut Draft,
) -> Result<(), NoMemory>
    requires truths { length truths.now ≡ length (variables_in parted.now) }
    requires member { label_of parted.now.ties (cell member.rel.0 member.ent.0) ≡ Some part }
    requires found { AreFound parted.now part truths.now draft.old }
    ensures { OnOk result ((r : Relation) → slice_get parted.now.spec.relations member.rel.0 ≡ Some r
        → FindsLists parted.now part truths.now member.rel.0 (length r.attrs) member.ent.0 draft.old draft.new) }
{
    parted.facts();
    let attrs = parted.attrs(member.rel);
    for attr in 0..attrs {
        rank_list(
            alloc,
            parted,
            part,
            truths,
            member,
            AttrId(attr as u32),
            draft,
        )?;
    }
    Ok(())
}

// What they say of one list of the part.
fn rank_list(
    alloc: Global,
    parted: &PartedSpec<'_>,
    part: u32,
    truths: &Assignment,
    member: Member,
    attr: AttrId,
    draft: &mut Draft,
) -> Result<(), NoMemory>
    requires truths { length truths.now ≡ length (variables_in parted.now) }
    requires member { label_of parted.now.ties (cell member.rel.0 member.ent.0) ≡ Some part }
    requires attr { (r : Relation) → slice_get parted.now.spec.relations member.rel.0 ≡ Some r → attr.0 < length r.attrs }
    requires found { AreFound parted.now part truths.now draft.old }
    ensures { OnOk result (FindsList parted.now part truths.now member.rel.0 attr.0 member.ent.0 draft.old draft.new) }
{
    parted.facts();
    let judged = parted.judge(alloc, truths, member.rel, attr, member.ent)?;
    draft.put(member.rel, attr, member.ent, judged)
}
