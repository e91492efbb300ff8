ghost use Rattle.std.specs.Prelude.{◌≡◌, ◌∷◌, All, OnOk};
ghost use Rattle.log_write.specs.Pieces.{many_pieces};
ghost use Rattle.text_write.specs.Spacing.{writes_all};
ghost use Rattle.report_write.specs.Named.{IsRowOf};
ghost use Rattle.report_write.specs.Pieces.{further_row_pieces, ranking_pieces};
ghost use Rattle.report_model.specs.Writable.{IsPlaceOf};

use crate::names::{write_attribute, write_entity, write_row};
use currency_base::{AttrId, EntId, NoMemory, RelId, RowId};
use spec_model::Relation;
use text_write::TextWriter;

/// Writes the ranking of an attribute and an entity of a relation; a list with no row is not written.
pub fn write_ranking(
    into: &mut TextWriter,
    relations: &[Relation],
    rel: RelId,
    attr: AttrId,
    ent: EntId,
    list: &[RowId],
) -> Result<(), NoMemory>
    requires place { IsPlaceOf relations.now rel.0 attr.0 ent.0 }
    requires rows { All (λ row. IsRowOf relations.now rel.0 row.0) list.now }
    ensures { OnOk result (into.new ≡ writes_all into.old (ranking_pieces relations.now rel.0 attr.0 ent.0 list.now)) }
{
    match list {
        [] => Ok(()),
        [oldest, newer @ ..] => write_rows(into, relations, rel, attr, ent, *oldest, newer),
    }
}

/// Writes the ranking of an attribute and an entity: its oldest row, and the newer ones.
#[tactic(auto, using(text_write::proofs::Writings::writes_append))]
fn write_rows(
    into: &mut TextWriter,
    relations: &[Relation],
    rel: RelId,
    attr: AttrId,
    ent: EntId,
    oldest: RowId,
    newer: &[RowId],
) -> Result<(), NoMemory>
    requires place { IsPlaceOf relations.now rel.0 attr.0 ent.0 }
    requires oldest { IsRowOf relations.now rel.0 oldest.0 }
    requires newer { All (λ row. IsRowOf relations.now rel.0 row.0) newer.now }
    ensures { OnOk result (into.new ≡ writes_all into.old (ranking_pieces relations.now rel.0 attr.0 ent.0
        (oldest ∷ newer.now))) }
{
    into.word("ranking")?;
    write_attribute(into, relations, rel, attr)?;
    into.word("of")?;
    write_entity(into, relations, rel, ent)?;
    into.symbol(":")?;
    write_row(into, relations, rel, oldest)?;
    write_newer(into, relations, rel, newer)?;
    into.symbol(";")
}

/// Writes the newer rows of a ranking, one after another.
fn write_newer(
    into: &mut TextWriter,
    relations: &[Relation],
    rel: RelId,
    rows: &[RowId],
) -> Result<(), NoMemory>
    requires { All (λ row. IsRowOf relations.now rel.0 row.0) rows.now }
    ensures { OnOk result (into.new ≡ writes_all into.old (many_pieces (further_row_pieces relations.now rel.0) rows.now)) }
{
    for row in rows {
        into.symbol("<")?;
        write_row(into, relations, rel, *row)?;
    }
    Ok(())
}
