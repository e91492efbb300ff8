ghost use Rattle.std.specs.Prelude.{◌≡◌, None, IfOk, IfSome, IfNone, length};
ghost use Rattle.partial_orders.specs.Pairs.{entity_of};
ghost use Rattle.spec_model.specs.Facts.{IsRelation, AreRelations};
ghost use Rattle.entity_rows.specs.Members.{AreEntityRows};
ghost use Rattle.log_axioms.specs.Entities.{AreIndexed, AreOwn};

use crate::conditions::entity_of;
use currency_base::{ItemList, NoMemory, RowId};
use entity_rows::{EntityRows, entity_rows};
use spec_model::Relation;
use std::alloc::Global;

/// The rows of each entity, for each relation.
pub(crate) type EntityIndex = ItemList<EntityRows>;

/// The rows of each entity of these relations. Takes time in proportion to the rows and entities.
pub(crate) fn entity_index(alloc: Global, relations: &[Relation]) -> Result<EntityIndex, NoMemory>
    requires { AreRelations relations.now }
    ensures { IfOk result (AreIndexed relations.now) }
{
    let mut index = Vec::new(alloc);
    for relation in relations {
        index.push(entity_rows(alloc, relation)?)?;
    }
    Ok(EntityIndex::from_items(index))
}

/// The rows of the entity of a row, if the row is there.
pub(crate) fn own_members<'a>(
    relation: &Relation,
    members: &'a EntityRows,
    row: RowId,
) -> Option<&'a [RowId]>
    requires facts { IsRelation relation.now }
    requires members { AreEntityRows relation.now.rows (length relation.now.entities) members.now }
    ensures some { IfSome result (λ own. AreOwn relation.now.rows row own.now) }
    ensures none { IfNone result (entity_of relation.now.rows row.0 ≡ None) }
{
    match entity_of(relation.rows.as_slice(), row) {
        Some(ent) => Some(members.get(ent as usize).as_slice()),
        None => None,
    }
}
