ghost use Rattle.std.specs.Prelude.{◌≡◌, ◌<◌, OnOk, Some, length, slice_get};
ghost use Rattle.text_write.specs.Spacing.{writes_all};
ghost use Rattle.report_write.specs.Named.{IsAttrOf, IsEntityOf, IsRowOf};
ghost use Rattle.report_write.specs.Pieces.{attribute_pieces, entity_pieces, relation_pieces, row_pieces};

use currency_base::{AttrId, EntId, NoMemory, RelId, RowId};
use spec_model::Relation;
use text_write::TextWriter;

/// The relation of an id.
pub fn relation_at(relations: &[Relation], rel: RelId) -> &Relation
    requires { rel.0 < length relations.now }
    ensures { slice_get relations.now rel.0 ≡ Some result.now }
{
    &relations[rel.0 as usize]
}

/// Writes the name of a relation.
#[tactic(auto, using(crate::proofs::Naming::relation_named))]
pub fn write_relation(
    into: &mut TextWriter,
    relations: &[Relation],
    rel: RelId,
) -> Result<(), NoMemory>
    requires { rel.0 < length relations.now }
    ensures { OnOk result (into.new ≡ writes_all into.old (relation_pieces relations.now rel.0)) }
{
    into.name(&relation_at(relations, rel).name)
}

/// Writes the name of an entity of a relation.
#[tactic(auto, using(crate::proofs::Naming::entity_named, crate::proofs::Naming::entity_within))]
pub fn write_entity(
    into: &mut TextWriter,
    relations: &[Relation],
    rel: RelId,
    ent: EntId,
) -> Result<(), NoMemory>
    requires { IsEntityOf relations.now rel.0 ent.0 }
    ensures { OnOk result (into.new ≡ writes_all into.old (entity_pieces relations.now rel.0 ent.0)) }
{
    let relation = relation_at(relations, rel);
    into.name(relation.entities.get(ent.0 as usize))
}

/// Writes the name of a row of a relation.
#[tactic(auto, using(crate::proofs::Naming::row_named, crate::proofs::Naming::row_within))]
pub fn write_row(
    into: &mut TextWriter,
    relations: &[Relation],
    rel: RelId,
    row: RowId,
) -> Result<(), NoMemory>
    requires { IsRowOf relations.now rel.0 row.0 }
    ensures { OnOk result (into.new ≡ writes_all into.old (row_pieces relations.now rel.0 row)) }
{
    let relation = relation_at(relations, rel);
    into.name(&relation.rows.row(row).name)
}

/// Writes the name of an attribute after its relation's.
#[tactic(auto, using(crate::proofs::Naming::attr_named, crate::proofs::Naming::attr_within))]
pub fn write_attribute(
    into: &mut TextWriter,
    relations: &[Relation],
    rel: RelId,
    attr: AttrId,
) -> Result<(), NoMemory>
    requires { IsAttrOf relations.now rel.0 attr.0 }
    ensures { OnOk result (into.new ≡ writes_all into.old (attribute_pieces relations.now rel.0 attr.0)) }
{
    let relation = relation_at(relations, rel);
    into.name(&relation.name)?;
    into.symbol(".")?;
    into.name(&relation.attrs.get(attr.0 as usize).name)
}
