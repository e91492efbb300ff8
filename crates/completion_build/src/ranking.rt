ghost use Rattle.std.specs.Prelude.{◌≡◌, ◌≢◌, ◌+◌, ◌<◌, [], length, Some, slice_get, IfOk, OnOk};
ghost use Rattle.order_literals.specs.Numbers.{numbers_of};
ghost use Rattle.order_literals.specs.Statements.{statements_of};
ghost use Rattle.spec_model.specs.Facts.{AreRelations};
ghost use Rattle.spec_model.specs.declared.relation.Relation.{Relation};
ghost use Rattle.completion_build.specs.Judged.{IsJudged};
ghost use Rattle.completion_build.specs.Places.{AreBuilt, contest_of};
ghost use Rattle.completion_build.specs.Ranked.{IsBuilt};

use crate::draft::Draft;
use crate::judging::{Judged, judge};
use crate::source::Source;
use crate::{Built, CycleList};
use currency_base::{Assignment, AttrId, EntId, NoMemory, RelId};
use order_literals::{Numbering, Wanted, pairs_are_decided};
use spec_model::{Completion, Specification, set_keeps_shape};
use std::alloc::Global;

/// The completion in which a row stands before another exactly where the assignment says so; or, where it
/// says none, each list whose pairs of rows have a cycle, with three rows that form one. For each row of a
/// list the rows that it is put before are counted; the counts rank the list. Takes time in proportion to the
/// pairs of rows of one entity in each attribute.
pub fn rank(
    alloc: Global,
    spec: &Specification,
    numbering: &Numbering,
    wanted: &Wanted,
    assignment: &Assignment,
) -> Result<Built, NoMemory>
    requires numbering { numbering.now ≡ numbers_of spec.now.relations wanted.now }
    requires assignment { length assignment.now ≡ length (statements_of numbering.now) }
    ensures { IfOk result (IsBuilt spec.now.relations (statements_of numbering.now) assignment.now) }
{
    pairs_are_decided();
    let source = Source {
        spec,
        numbering,
        assignment,
    };
    let completion = Completion::new(alloc, spec)?;
    let mut draft = Draft {
        completion,
        cycles: CycleList::new(alloc),
    };
    rank_relations(alloc, &source, &mut draft)?;
    Ok(draft.built())
}

/// What the assignment says of one list: the order of its rows, or three of them that form a cycle. Takes time in
/// proportion to the pairs of its rows.
pub fn judge_list(
    alloc: Global,
    spec: &Specification,
    numbering: &Numbering,
    wanted: &Wanted,
    assignment: &Assignment,
    rel: RelId,
    attr: AttrId,
    ent: EntId,
) -> Result<Judged, NoMemory>
    requires numbering { numbering.now ≡ numbers_of spec.now.relations wanted.now }
    requires assignment { length assignment.now ≡ length (statements_of numbering.now) }
    requires rel { rel.0 < length spec.now.relations }
    requires attr { (r : Relation) → slice_get spec.now.relations rel.0 ≡ Some r → attr.0 < length r.attrs }
    requires ent { (r : Relation) → slice_get spec.now.relations rel.0 ≡ Some r → ent.0 < length r.entities }
    ensures { IfOk result (λ judged. (r : Relation) → slice_get spec.now.relations rel.0 ≡ Some r
        → IsJudged (contest_of numbering.now assignment.now rel attr r ent.0) ent.0 judged) }
{
    let source = Source {
        spec,
        numbering,
        assignment,
    };
    let tournament = source.tournament(rel, attr, ent);
    judge(alloc, &tournament, ent)
}

// Builds the lists of all relations.
fn rank_relations(alloc: Global, source: &Source<'_>, draft: &mut Draft) -> Result<(), NoMemory>
    requires { AreBuilt source.now.relations source.now.numbers source.now.truths 0 0 0 draft.old.completion draft.old.cycles }
    ensures facts { AreRelations source.now.relations }
    ensures built { OnOk result (AreBuilt source.now.relations source.now.numbers source.now.truths
        (length source.now.relations) 0 0 draft.new.completion draft.new.cycles) }
{
    for rel in 0..source.relations().len() {
        rank_relation(alloc, source, RelId(rel as u32), draft)?;
    }
    Ok(())
}

// Builds the lists of a relation.
fn rank_relation(
    alloc: Global,
    source: &Source<'_>,
    rel: RelId,
    draft: &mut Draft,
) -> Result<(), NoMemory>
    requires rel { rel.0 < length source.now.relations }
    requires built { AreBuilt source.now.relations source.now.numbers source.now.truths rel.0 0 0
        draft.old.completion draft.old.cycles }
    ensures { OnOk result (AreBuilt source.now.relations source.now.numbers source.now.truths (rel.0 + 1) 0 0
        draft.new.completion draft.new.cycles) }
{
    for attr in 0..source.relation(rel).attrs.len() {
        rank_attribute(alloc, source, rel, AttrId(attr as u32), draft)?;
    }
    Ok(())
}

// Builds the lists of an attribute.
fn rank_attribute(
    alloc: Global,
    source: &Source<'_>,
    rel: RelId,
    attr: AttrId,
    draft: &mut Draft,
) -> Result<(), NoMemory>
    requires rel { rel.0 < length source.now.relations }
    requires attr { (r : Relation) → slice_get source.now.relations rel.0 ≡ Some r → attr.0 < length r.attrs }
    requires built { AreBuilt source.now.relations source.now.numbers source.now.truths rel.0 attr.0 0
        draft.old.completion draft.old.cycles }
    ensures { OnOk result (AreBuilt source.now.relations source.now.numbers source.now.truths rel.0 (attr.0 + 1) 0
        draft.new.completion draft.new.cycles) }
{
    for ent in 0..source.relation(rel).entities.len() {
        rank_list(alloc, source, rel, attr, EntId(ent as u32), draft)?;
    }
    Ok(())
}

// Builds one list.
fn rank_list(
    alloc: Global,
    source: &Source<'_>,
    rel: RelId,
    attr: AttrId,
    ent: EntId,
    draft: &mut Draft,
) -> Result<(), NoMemory>
    requires rel { rel.0 < length source.now.relations }
    requires attr { (r : Relation) → slice_get source.now.relations rel.0 ≡ Some r → attr.0 < length r.attrs }
    requires ent { (r : Relation) → slice_get source.now.relations rel.0 ≡ Some r → ent.0 < length r.entities }
    requires built { AreBuilt source.now.relations source.now.numbers source.now.truths rel.0 attr.0 ent.0
        draft.old.completion draft.old.cycles }
    ensures { OnOk result (AreBuilt source.now.relations source.now.numbers source.now.truths rel.0 attr.0
        (ent.0 + 1) draft.new.completion draft.new.cycles) }
{
    set_keeps_shape();
    let tournament = source.tournament(rel, attr, ent);
    let judged = judge(alloc, &tournament, ent)?;
    draft.put(rel, attr, ent, judged)
}
