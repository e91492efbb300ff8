ghost use Rattle.std.specs.Prelude.{◌≡◌, ◌<◌, [], OnOk, length, slice_index_or};
ghost use Rattle.spec_model.specs.Completion.{HasShape, lists_of};
ghost use Rattle.text_write.specs.Spacing.{writes_all};
ghost use Rattle.report_write.specs.Named.{IsAttrOf};
ghost use Rattle.report_write.specs.Pieces.{attr_rankings, completion_pieces, differing, entity_rankings, rankings_pieces};
ghost use Rattle.report_write.specs.Shown.{AreOn};
ghost use Rattle.report_model.specs.Writable.{IsWritableCompletion};

use crate::names::relation_at;
use crate::ranking::write_ranking;
use crate::shown::Shown;
use currency_base::{AttrId, EntId, NoMemory, RelId};
use spec_model::{Completion, Specification};
use text_write::TextWriter;

/// Writes a completion after what is written, with each ranking that has a row.
pub fn write_completion(
    into: &mut TextWriter,
    spec: &Specification,
    completion: &Completion,
) -> Result<(), NoMemory>
    requires { IsWritableCompletion spec.now.relations completion.now }
    ensures { OnOk result (into.new ≡ writes_all into.old (completion_pieces spec.now.relations completion.now)) }
{
    write_shown(into, spec, &Shown::whole(completion))
}

/// Writes a later completion: the rankings that differ from the first one's.
pub fn write_later(
    into: &mut TextWriter,
    spec: &Specification,
    first: &Completion,
    completion: &Completion,
) -> Result<(), NoMemory>
    requires first { HasShape spec.now.relations first.now }
    requires later { IsWritableCompletion spec.now.relations completion.now }
    ensures { OnOk result (into.new ≡ writes_all into.old
        (completion_pieces spec.now.relations (differing first.now completion.now))) }
{
    write_shown(into, spec, &Shown::differing(first, completion))
}

/// Writes the word `completion` and the rankings that are shown.
#[tactic(auto, using(text_write::proofs::Writings::writes_append))]
fn write_shown(
    into: &mut TextWriter,
    spec: &Specification,
    shown: &Shown<'_>,
) -> Result<(), NoMemory>
    requires { AreOn spec.now.relations shown.now }
    ensures { OnOk result (into.new ≡ writes_all into.old (completion_pieces spec.now.relations shown.now)) }
{
    into.word("completion")?;
    into.symbol(";")?;
    write_rankings(into, spec, shown)
}

/// Writes the rankings that are shown, relation by relation.
fn write_rankings(
    into: &mut TextWriter,
    spec: &Specification,
    shown: &Shown<'_>,
) -> Result<(), NoMemory>
    requires { AreOn spec.now.relations shown.now }
    ensures { OnOk result (into.new ≡ writes_all into.old (rankings_pieces spec.now.relations 0 shown.now)) }
{
    for rel in 0..spec.relations().len() {
        write_relation(into, spec, shown, RelId(rel as u32))?;
    }
    Ok(())
}

/// Writes those of a relation, attribute by attribute.
fn write_relation(
    into: &mut TextWriter,
    spec: &Specification,
    shown: &Shown<'_>,
    rel: RelId,
) -> Result<(), NoMemory>
    requires shown { AreOn spec.now.relations shown.now }
    requires rel { rel.0 < length spec.now.relations }
    ensures { OnOk result (into.new ≡ writes_all into.old (attr_rankings spec.now.relations rel.0 0
        (slice_index_or shown.now rel.0 []))) }
{
    for attr in 0..relation_at(spec.relations(), rel).attrs.len() {
        write_attribute(into, spec, shown, rel, AttrId(attr as u32))?;
    }
    Ok(())
}

/// Writes those of an attribute, entity by entity.
fn write_attribute(
    into: &mut TextWriter,
    spec: &Specification,
    shown: &Shown<'_>,
    rel: RelId,
    attr: AttrId,
) -> Result<(), NoMemory>
    requires shown { AreOn spec.now.relations shown.now }
    requires attr { IsAttrOf spec.now.relations rel.0 attr.0 }
    ensures { OnOk result (into.new ≡ writes_all into.old (entity_rankings spec.now.relations rel.0 attr.0 0
        (lists_of shown.now rel.0 attr.0))) }
{
    let relations = spec.relations();
    for ent in 0..relation_at(relations, rel).entities.len() {
        let ent = EntId(ent as u32);
        let list = shown.ranking(rel, attr, ent);
        write_ranking(into, relations, rel, attr, ent, list)?;
    }
    Ok(())
}
