ghost use Rattle.std.specs.Prelude.{◌≡◌, ◌<◌, Some, length, slice_get, IfOk};
ghost use Rattle.spec_model.specs.Facts.{AreRelations};
ghost use Rattle.order_literals.specs.Numbers.{is_wanted, tables_from};
ghost use Rattle.order_literals.specs.Layout.{HaveFewPairs};

use crate::table::Table;
use currency_base::{NoMemory, RelId};
use spec_model::{RelList, Relation};
use std::alloc::Global;

/// What is numbered of each relation.
pub(crate) fn all_tables(
    alloc: Global,
    relations: &[Relation],
    currents: &RelList,
) -> Result<Vec<Table>, NoMemory>
    requires facts { AreRelations relations.now }
    requires few { HaveFewPairs relations.now }
    ensures { IfOk result (λ tables. tables.items ≡ tables_from currents.now 0 relations.now) }
{
    let mut tables = Vec::new(alloc);
    for rel in 0..relations.len() {
        let relation = relation_at(relations, rel);
        let wanted = is_wanted(currents, RelId(rel as u32));
        let Ok(table) = Table::new(alloc, relation, wanted) else {
            return Err(NoMemory);
        };
        let Ok(()) = tables.push(table) else {
            return Err(NoMemory);
        };
    }
    Ok(tables)
}

/// The relation at a place.
fn relation_at(relations: &[Relation], rel: usize) -> &Relation
    requires { rel < length relations.now }
    ensures { slice_get relations.now rel ≡ Some result.now }
{
    &relations[rel]
}

/// Are the current values of a relation wanted?
fn is_wanted(currents: &RelList, rel: RelId) -> bool
    ensures { result ≡ is_wanted currents.now rel.0 }
{
    currents.as_slice().iter().any(|wanted| wanted.0 == rel.0)
}

/// The table of a relation.
pub(crate) fn table_at(tables: &[Table], rel: RelId) -> &Table
    requires { rel.0 < length tables.now }
    ensures { slice_get tables.now rel.0 ≡ Some result.now }
{
    &tables[rel.0 as usize]
}
