//! The rows of each entity.

ghost use Rattle.std.specs.Prelude.{◌≡◌, map, IfOk};
ghost use Rattle.spec_model.specs.Facts.{AreRelations};
ghost use Rattle.forced_values.specs.Values.{grouping_of};

use currency_base::NoMemory;
use entity_lists::EntityLists;
use spec_model::Relation;
use std::alloc::Global;

/// For each relation the rows of each of its entities.
pub(crate) fn group_rows(
    alloc: Global,
    relations: &[Relation],
) -> Result<Vec<EntityLists>, NoMemory>
    requires { AreRelations relations.now }
    ensures { IfOk result (λ groups. groups.items ≡ map grouping_of relations.now) }
{
    let mut groups = Vec::new(alloc);
    for relation in relations {
        let rows = relation.rows.as_slice();
        groups.push(EntityLists::new(alloc, rows, relation.entities.len())?)?;
    }
    Ok(groups)
}
