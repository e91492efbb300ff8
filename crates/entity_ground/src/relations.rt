ghost use Rattle.std.specs.Prelude.{◌≡◌, ◌<◌, Some, IfOk, length, map, slice_get};
ghost use Rattle.spec_model.specs.Facts.{IsRelation, AreRelations};
ghost use Rattle.entity_ground.specs.Parts.{grouping_of};

use currency_base::{NoMemory, RelId};
use entity_lists::EntityLists;
use spec_model::Relation;
use std::alloc::Global;

/// For each relation the rows of its entities.
pub(crate) fn entity_lists_of(
    alloc: Global,
    relations: &[Relation],
) -> Result<Vec<EntityLists>, NoMemory>
    requires { AreRelations relations.now }
    ensures { IfOk result (λ lists. lists.items ≡ map grouping_of relations.now) }
{
    let mut all = Vec::new(alloc);
    for relation in relations {
        let lists = match entity_lists(alloc, relation) {
            Ok(lists) => lists,
            Err(NoMemory) => return Err(NoMemory),
        };
        let Ok(()) = all.push(lists) else {
            return Err(NoMemory);
        };
    }
    Ok(all)
}

// The rows of a relation's entities.
fn entity_lists(alloc: Global, relation: &Relation) -> Result<EntityLists, NoMemory>
    requires { IsRelation relation.now }
    ensures { IfOk result (λ lists. lists ≡ grouping_of relation.now) }
{
    EntityLists::new(alloc, relation.rows.as_slice(), relation.entities.len())
}

/// The relation of an id.
pub(crate) fn relation_at(relations: &[Relation], rel: RelId) -> &Relation
    requires { rel.0 < length relations.now }
    ensures { slice_get relations.now rel.0 ≡ Some result.now }
{
    &relations[rel.0 as usize]
}

/// The lists of the relation of an id.
pub(crate) fn lists_at(lists: &[EntityLists], rel: RelId) -> &EntityLists
    requires { rel.0 < length lists.now }
    ensures { slice_get lists.now rel.0 ≡ Some result.now }
{
    &lists[rel.0 as usize]
}
